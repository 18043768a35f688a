//! Laws of the definitions.
ghost use Rattle.timing_arcs.specs.OneAnswer.{NoFaultBeside, OneFault, OneModel};
ghost use Rattle.timing_arcs.specs.WholeTables.{WholeTables};

/// The law of cells, which its contract states: where a cell has a model it is one, and there is no fault; otherwise there is one
/// fault, want of memory aside. It does nothing when it is called.
pub fn one_cell_answer()
    ensures beside { NoFaultBeside }
    ensures one { OneFault }
    ensures model { OneModel }
{}

/// The law of tables, which its contract states: those of a model are whole, so that a look-up in one has an answer. It does nothing
/// when it is called.
pub fn models_have_whole_tables()
    ensures law { WholeTables }
{}
