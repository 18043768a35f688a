//! Cells of small libraries that have no model. The expected faults are another reader's of the same groups.
use super::libraries::FAULTY;
use super::models::built;
use std::alloc::Global;
use timing_arcs::{Cell, CellFault};

/// The word of a fault, as the tables write it.
pub fn word_of(fault: CellFault) -> &'static [u8] {
    match fault {
        CellFault::NoSuchCell => b"no such cell",
        CellFault::BadUnit => b"unit",
        CellFault::BadDirection => b"direction",
        CellFault::BadNumber => b"number",
        CellFault::UnknownRelatedPin => b"related pin",
        CellFault::UnknownTemplate => b"template",
        CellFault::UnknownVariable => b"variable",
        CellFault::BadAxis => b"axis",
        CellFault::BadTable => b"table",
        CellFault::NoTransition => b"no transition",
        CellFault::NegativeTransition => b"negative",
        CellFault::OutOfMemory => b"memory",
    }
}

/// Libraries whose cell `c` has no model, and what is wrong first.
const LIBRARIES: [(&[u8], &[u8]); 5] = [
    (
        b"library (l) { cell () { } cell (d, c) { } }",
        b"no such cell",
    ),
    (
        b"library (l) { time_unit : \"1fs\"; capacitive_load_unit (1, ff); cell (c) { } }",
        b"unit",
    ),
    (
        b"library (l) { capacitive_load_unit (0, ff); cell (c) { } }",
        b"unit",
    ),
    (
        b"library (l) { capacitive_load_unit (1, nf); cell (c) { pin (A) { } } }",
        b"unit",
    ),
    (
        b"library (l) { capacitive_load_unit (1, ff, 2); cell (c) { } }",
        b"unit",
    ),
];

/// Cells of `FAULTY`, and what is wrong first.
const CELLS: [(&[u8], &[u8]); 16] = [
    (b"no_way", b"direction"),
    (b"way", b"direction"),
    (b"way_behind", b"direction"),
    (b"word", b"number"),
    (b"below", b"number"),
    (b"past", b"number"),
    (b"edge", b"number"),
    (b"related", b"related pin"),
    (b"template", b"template"),
    (b"no_template", b"template"),
    (b"variable", b"variable"),
    (b"axis", b"axis"),
    (b"count", b"table"),
    (b"value", b"number"),
    (b"alone", b"no transition"),
    (b"negative", b"negative"),
];

fn is_fault(found: Result<Cell, CellFault>, word: &[u8]) -> bool {
    match found {
        Err(fault) => word_of(fault) == word,
        Ok(_) => false,
    }
}

/// The first library with another fault, or none.
fn first_other_library(alloc: Global) -> Option<usize> {
    for (number, row) in LIBRARIES.iter().enumerate() {
        if !is_fault(built(alloc, row.0, b"c"), row.1) {
            return Some(number);
        }
    }
    None
}

/// The first cell with another fault, or none.
fn first_other_cell(alloc: Global) -> Option<usize> {
    for (number, row) in CELLS.iter().enumerate() {
        if !is_fault(built(alloc, FAULTY, row.0), row.1) {
            return Some(number);
        }
    }
    None
}

#[test]
fn the_first_fault_is_told(rt: HostRuntime) {
    assert_eq!(rt; first_other_library(rt.alloc()), None);
    assert_eq!(rt; first_other_cell(rt.alloc()), None);
}
