//! Models of cells. The expected answers are another reader's of the same pins and groups; those of `DEFAULTS` are worked by hand.
use super::libraries::{DEFAULTS, MODELS};
use super::models::built;
use std::alloc::Global;
use timing_arcs::{Arc, ArcKind, Cell, Direction, Pin};
use worked_files::LIBRARY;

/// A pin: its name, its direction, and its capacitance in grains of 10^-21 F.
type WantedPin = (&'static [u8], Direction, u64);

/// An arc: the places of its pins, its kind, and whether it has a rise and a fall.
type WantedArc = (usize, usize, ArcKind, bool, bool);

/// A cell, and its pins and arcs.
type Wanted = (&'static [u8], &'static [WantedPin], &'static [WantedArc]);

/// What stands in the worked library.
const WORKED_ROWS: [Wanted; 2] = [
    (
        b"XOR",
        &[
            (b"A", Direction::Input, 1_000_000),
            (b"B", Direction::Input, 1_000_000),
            (b"Z", Direction::Output, 0),
        ],
        &[
            (0, 2, ArcKind::Positive, true, true),
            (1, 2, ArcKind::Positive, true, true),
            (0, 2, ArcKind::Negative, true, true),
            (1, 2, ArcKind::Negative, true, true),
        ],
    ),
    (
        b"DFF",
        &[
            (b"CK", Direction::Input, 1_000_000),
            (b"D", Direction::Input, 1_000_000),
            (b"Q", Direction::Output, 0),
            (b"QN", Direction::Output, 0),
        ],
        &[
            (0, 2, ArcKind::RisingEdge, true, true),
            (0, 3, ArcKind::RisingEdge, true, false),
        ],
    ),
];

/// What stands in `MODELS`.
const MODEL_ROWS: [Wanted; 3] = [
    // A name's first group counts, and of several attributes the last. A pin that is no input has no capacitance.
    (
        b"pins",
        &[
            (b"A", Direction::Input, 2_000_000),
            (b"B", Direction::Output, 0),
            (b"C", Direction::Input, 3_000_000),
            (b"D", Direction::Input, 3_000_000),
            (b"E", Direction::Input, 4_000_000),
            (b"F", Direction::Inout, 0),
            (b"G", Direction::Internal, 0),
            (b"H", Direction::Input, 0),
            (b"I", Direction::Input, 0),
        ],
        &[],
    ),
    // By output pin, then by group, then by related pin. One that is no input gives no arc.
    (
        b"arcs",
        &[
            (b"A", Direction::Input, 0),
            (b"B", Direction::Input, 0),
            (b"C", Direction::Inout, 0),
            (b"P", Direction::Output, 0),
            (b"Q", Direction::Output, 0),
            (b"R", Direction::Output, 0),
            (b"S", Direction::Output, 0),
            (b"T", Direction::Output, 0),
            (b"U", Direction::Output, 0),
            (b"V", Direction::Input, 0),
        ],
        &[
            (1, 4, ArcKind::Both, true, false),
            (0, 4, ArcKind::Both, true, false),
            (0, 4, ArcKind::Both, true, false),
            (0, 4, ArcKind::Both, true, false),
            (0, 5, ArcKind::FallingEdge, true, false),
            (0, 5, ArcKind::RisingEdge, true, false),
            (0, 5, ArcKind::Positive, true, false),
            (0, 5, ArcKind::Negative, true, false),
            (0, 5, ArcKind::Both, true, false),
            (0, 5, ArcKind::Both, false, true),
            (0, 5, ArcKind::Both, true, false),
            (0, 6, ArcKind::Positive, true, false),
            (1, 7, ArcKind::Negative, true, true),
            (0, 7, ArcKind::Negative, true, true),
            (9, 8, ArcKind::Both, true, false),
        ],
    ),
    (b"twice", &[(b"A", Direction::Input, 0)], &[]),
];

/// What stands in `DEFAULTS`: the capacitance, or else the larger of the edges that there are, or else the default, times 1.5 pF.
const DEFAULT_ROWS: [Wanted; 1] = [(
    b"c",
    &[
        (b"A", Direction::Input, 1_500_000_000),
        (b"B", Direction::Input, 9_000_000_000),
        (b"C", Direction::Input, 9_750_000_000),
        (b"D", Direction::Input, 4_500_000_000),
        (b"E", Direction::Input, 3_000_000_000),
        (b"F", Direction::Input, 10_500_000_000),
    ],
    &[],
)];

fn is_pin(pin: &Pin, wanted: &WantedPin) -> bool {
    pin.name.bytes() == wanted.0 && pin.direction == wanted.1 && pin.cap.0 == wanted.2
}

fn is_arc(arc: &Arc, wanted: &WantedArc) -> bool {
    arc.from == wanted.0
        && arc.to == wanted.1
        && arc.kind == wanted.2
        && arc.rise.is_some() == wanted.3
        && arc.fall.is_some() == wanted.4
}

fn are_pins(pins: &[Pin], wanted: &[WantedPin]) -> bool {
    for (pin, row) in pins.iter().zip(wanted) {
        if !is_pin(pin, row) {
            return false;
        }
    }
    pins.len() == wanted.len()
}

fn are_arcs(arcs: &[Arc], wanted: &[WantedArc]) -> bool {
    for (arc, row) in arcs.iter().zip(wanted) {
        if !is_arc(arc, row) {
            return false;
        }
    }
    arcs.len() == wanted.len()
}

fn is_model(cell: &Cell, wanted: &Wanted) -> bool {
    are_pins(cell.pins(), wanted.1) && are_arcs(cell.arcs(), wanted.2)
}

fn is_built(alloc: Global, library: &[u8], wanted: &Wanted) -> bool {
    match built(alloc, library, wanted.0) {
        Ok(cell) => is_model(&cell, wanted),
        Err(_) => false,
    }
}

/// The first row whose cell has another model, or none.
fn first_other(alloc: Global, library: &[u8], rows: &[Wanted]) -> Option<usize> {
    for (number, row) in rows.iter().enumerate() {
        if !is_built(alloc, library, row) {
            return Some(number);
        }
    }
    None
}

#[test]
fn cells_become_models(rt: HostRuntime) {
    assert_eq!(rt; first_other(rt.alloc(), LIBRARY, &WORKED_ROWS), None);
    assert_eq!(rt; first_other(rt.alloc(), MODELS, &MODEL_ROWS), None);
    assert_eq!(rt; first_other(rt.alloc(), DEFAULTS, &DEFAULT_ROWS), None);
}
