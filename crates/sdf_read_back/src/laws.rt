//! The laws of what is written and read.
ghost use Rattle.name_table.specs.WellSpelled.{IsWellSpelled};
ghost use Rattle.sdf_read_back.specs.Names.{IsSettled, WholeSettles, HalvesSettle, NamedSettles};
ghost use Rattle.sdf_read_back.specs.ReadBack.{ReadBack, OnlyReadBack};
ghost use Rattle.sdf_read_back.specs.WellSpelledNodes.{WholeWellSpelled, HalvesWellSpelled};

/// The read-back law, which its contract states: of rows for one corner or for three that may be written, and whose names are
/// well spelled, the SDF grammar relates the text to the rows that are read back, and to no others. It does nothing when it is
/// called.
pub fn read_back()
    ensures law { ReadBack IsWellSpelled }
    ensures only { OnlyReadBack IsWellSpelled }
{}

/// The same law of more names: those that are their own canonical spelling and are not empty, other than those that begin with
/// `//`, of which a reader makes a comment. It does nothing when it is called.
pub fn settled_read_back()
    ensures law { ReadBack IsSettled }
    ensures only { OnlyReadBack IsSettled }
{}

/// The law of the names that stand in the rows of SPEF's wires, which its contract states: each is settled, unless it begins
/// with `//`. It does nothing when it is called.
pub fn nodes_settle()
    ensures whole { WholeSettles }
    ensures halves { HalvesSettle }
    ensures named { NamedSettles }
{}

/// The law of well spelled nodes, which its contract states: the spelling of a SPEF node is well spelled exactly where its name,
/// with the divider between head and tail, is one part or more, none of them empty, and each bit in it stands behind a letter.
/// It does nothing when it is called.
pub fn well_spelled_nodes()
    ensures whole { WholeWellSpelled }
    ensures halves { HalvesWellSpelled }
{}
