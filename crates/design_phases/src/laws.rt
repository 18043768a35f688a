//! The laws of the phases: each has one answer.
ghost use Rattle.design_phases.specs.NetlistPhase.{OneNetlist};
ghost use Rattle.design_phases.specs.OneAnswer.{OneLibrary, OneCell, OneUse, OneModels, OneLink};
ghost use Rattle.design_phases.specs.OneDesign.{OneInputs, OneLinking, OneDesign};

/// The law of libraries, which its contract states: the bytes of a file have one tree, or one refusal. It does nothing when it is
/// called.
#[tactic(auto, using(crate::proofs::OneLibrary::one_library_lem))]
pub fn one_library()
    ensures law { OneLibrary }
{}

/// The law of cells, which its contract states: a cell has one model, or one refusal. It does nothing when it is called.
#[tactic(auto, using(crate::proofs::OneLibrary::one_cell_lem))]
pub fn one_cell()
    ensures law { OneCell }
{}

/// The law of netlists, which its contract states: the bytes of a file have one list of modules, or one refusal. It does nothing when
/// it is called.
#[tactic(auto, using(crate::proofs::OneNetlist::one_netlist_lem))]
pub fn one_netlist()
    ensures law { OneNetlist }
{}

/// The law of used cells, which its contract states: where the names of its modules differ, a design has one list of cells, or one
/// refusal, in which one of the modules that contain themselves is named. It does nothing when it is called.
#[tactic(auto, using(crate::proofs::OneInputs::one_use_lem))]
pub fn one_use_answer()
    ensures law { OneUse }
{}

/// The law of models, which its contract states: the cells that are used have one list of models, or one refusal. It does nothing when
/// it is called.
#[tactic(auto, using(crate::proofs::OneInputs::one_models_lem))]
pub fn one_models()
    ensures law { OneModels }
{}

/// The law of flat netlists, which its contract states: where the names of its modules and of the cells differ, a design has one flat
/// netlist, or one refusal. It does nothing when it is called.
#[tactic(auto, using(crate::proofs::OneInputs::one_link_lem))]
pub fn one_link()
    ensures law { OneLink }
{}

/// The law of inputs, which its contract states: the bytes of a netlist and the files of its libraries have one answer, the inputs of a
/// design, or one reason why there are none, in which one of the modules that contain themselves may be named. It does nothing when it is
/// called.
#[tactic(auto, using(crate::proofs::OneDesign::one_inputs))]
pub fn one_inputs()
    ensures law { OneInputs }
{}

/// The law of linked designs, which its contract states: inputs that were read have one linked design, or one refusal. It does nothing
/// when it is called.
#[tactic(auto, using(crate::proofs::OneDesign::one_linking))]
pub fn one_linking()
    ensures law { OneLinking }
{}

/// The law of designs, which its contract states: the files of a netlist and of its libraries have one answer, a linked design, or one
/// reason why there is none, in which one of the modules that contain themselves may be named. It does nothing when it is called.
#[tactic(auto, using(crate::proofs::OneDesign::one_design))]
pub fn one_design()
    ensures law { OneDesign }
{}
