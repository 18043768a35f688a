//! The laws of the phases.
ghost use Rattle.corner_set.specs.declared.pick.Pick.{Pick};
ghost use Rattle.spef_nets.specs.Drafts.{corners_of};
ghost use Rattle.delay_core.specs.OneAnnotation.{OneAnnotation};
ghost use Rattle.delay_core.specs.OneTiming.{OneDelays, OneSlews};

use corner_set::CornerSet;

/// The law of loads and Elmore sums, which its contract states: where the sections of a file are of different nets, a design has one answer
/// of the phases of its nets. There is one table of loads and Elmore sums, or one refusal, in which one of the resistors of a mesh is
/// named. It does nothing when it is called.
#[tactic(auto, using(crate::proofs::OneDelays::one_delays_answer))]
pub fn one_delays_answer()
    ensures law { OneDelays }
{}

/// The law of slews, which its contract states: a design with its loads and Elmore sums has one answer of the phases of its slews. There is
/// one table of slews, or one refusal, in which one of the loops is named. It does nothing when it is called.
#[tactic(auto, using(crate::proofs::OneSlews::one_slews_answer))]
pub fn one_slews_answer()
    ensures law { OneSlews }
{}

/// The law of a design's delays, which its contract states: its files and settings have one answer at each set of corners, where the files
/// are told. It is the design with its delays, or one reason why it has none, but for which resistor of a mesh, which of the modules that
/// contain themselves and which loop is named. It does nothing when it is called.
pub fn one_annotation<C: CornerSet>()
    ensures law { (pick : Pick) → OneAnnotation (corners_of C.COUNT C.number_of C.member_of pick) }
{}
