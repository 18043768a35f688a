//! Laws of the definitions.
ghost use Rattle.liberty_tables.specs.OneMeaning.{OneTable, OneTransition};

/// The law of tables, which its contract states: a group of a library means one table or one fault, as a delay and as a
/// transition, whatever is read. It does nothing when it is called.
#[tactic(auto, using(crate::proofs::OneTable::one_table_lem, crate::proofs::OneTable::one_transition_lem))]
pub fn one_table()
    ensures table { OneTable }
    ensures transition { OneTransition }
{}
