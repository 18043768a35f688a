//! The words of what a line names by a kind: a corner, an edge, an axis, or a fault. Each is lent by the refusal that names it, as its
//! names are.
ghost use Rattle.std.specs.Prelude.{◌≡◌};
ghost use Rattle.refusals.specs.RefusalLine.{number_text, index_text, corner_text, cause_text, fault_text, edge_text, part_text, axis_text};

use crate::refusal::{IndexKind, NumberKind};
use cell_models::{Edge, Part};
use liberty_groups::Cause;
use liberty_tables::CellFault;
use nldm_lookup::Which;

/// The word of an edge.
pub fn edge_word(edge: &Edge) -> &[u8]
    ensures { result.now ≡ edge_text edge.now }
{
    match edge {
        Edge::Rise => b"rise",
        Edge::Fall => b"fall",
    }
}

/// The word of a part.
pub fn part_word(part: &Part) -> &[u8]
    ensures { result.now ≡ part_text part.now }
{
    match part {
        Part::Delay => b"delay",
        Part::Transition => b"transition",
    }
}

/// The word of an axis.
pub fn axis_word(axis: &Which) -> &[u8]
    ensures { result.now ≡ axis_text axis.now }
{
    match axis {
        Which::Slew => b"slew",
        Which::Load => b"load",
    }
}

/// What is wrong with a number.
pub fn number_words(kind: &NumberKind) -> &[u8]
    ensures { result.now ≡ number_text kind.now }
{
    match kind {
        NumberKind::BadUnit => b"bad unit",
        NumberKind::BadNumber => b"bad number",
        NumberKind::ValueTooLarge => b"value too large",
    }
}

/// What is wrong with an index.
pub fn index_words(kind: &IndexKind) -> &[u8]
    ensures { result.now ≡ index_text kind.now }
{
    match kind {
        IndexKind::Unknown => b"unknown",
        IndexKind::Repeated => b"repeated",
    }
}

/// How a corner of a run is printed: `only` where the run has one, and else as the member of a triple that counts at it.
pub fn corner_word(corners: usize, corner: &usize) -> &[u8]
    ensures { result.now ≡ corner_text corners corner.now }
{
    if corners == 1 {
        b"only"
    } else if *corner == 0 {
        b"min"
    } else if *corner == 1 {
        b"typ"
    } else {
        b"max"
    }
}

/// The cause of a fault of a library.
pub fn cause_words(cause: &Cause) -> &[u8]
    ensures { result.now ≡ cause_text cause.now }
{
    match cause {
        Cause::BadByte => b"bad byte",
        Cause::OpenText => b"open text",
        Cause::OpenComment => b"open comment",
        Cause::Unexpected => b"unexpected",
        Cause::EndInside => b"end inside",
        Cause::TooDeep => b"too deep",
        Cause::NotLibrary => b"not library",
    }
}

/// The fault of a cell.
pub fn fault_words(fault: &CellFault) -> &[u8]
    ensures { result.now ≡ fault_text fault.now }
{
    match fault {
        CellFault::NoSuchCell => b"no such cell",
        CellFault::BadUnit => b"bad unit",
        CellFault::BadDirection => b"bad direction",
        CellFault::BadNumber => b"bad number",
        CellFault::UnknownRelatedPin => b"unknown related pin",
        CellFault::UnknownTemplate => b"unknown template",
        CellFault::UnknownVariable => b"unknown variable",
        CellFault::BadAxis => b"bad axis",
        CellFault::BadTable => b"bad table",
        CellFault::NoTransition => b"no transition",
        CellFault::NegativeTransition => b"negative transition",
        CellFault::OutOfMemory => b"out of memory",
    }
}
