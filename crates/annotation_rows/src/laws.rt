//! The laws of the rows of paths.
ghost use Rattle.annotation_rows.specs.PrintedRows.{PrintedRows};
ghost use Rattle.annotation_rows.specs.RowLaws.{LiveRows, NoValueNoDelay, ValuesAreDelays};
ghost use Rattle.annotation_rows.specs.SpelledRows.{SpelledRows};

/// The law of live paths, which its contract states: where a design has slews, a path has a row just where it is live, and it is so at each
/// corner or at none. It does nothing when it is called.
pub fn live_paths_have_rows()
    ensures law { LiveRows }
{}

/// The law of values, which its contract states: the values of a path's row at an edge are its delays at the corners; and where a design
/// has slews, a row without values at an edge is that of a path without a delay there at any corner. It does nothing when it is called.
pub fn values_are_delays()
    ensures values { ValuesAreDelays }
    ensures none { NoValueNoDelay }
{}

/// The law of names, which its contract states: where a design has slews, its instances and its ports are well spelled in SDF, and each pin
/// that is on a net has a name, the names in its rows are well spelled. It does nothing when it is called.
pub fn rows_are_well_spelled()
    ensures law { SpelledRows }
{}

/// The law of printed values, which its contract states: where the Elmore sums of a design are below their limit, each value of its rows
/// has one time a corner, of a size that is printed. It does nothing when it is called.
pub fn rows_are_printed()
    ensures law { PrintedRows }
{}
