//! Cells of three corners, joined and refused.
ghost use Rattle.std.specs.Prelude.{◌≡◌, length, IfSome};

use super::libraries::SHAPES;
use super::models::built;
use corner_set::{Pick, Triple};
use std::alloc::Global;
use timing_arcs::{
    ArcKind, CellList, CellSet, Direction, Entry, JoinEnd, ShapeFault, join_corners,
};

/// A letter for an entry: that of a pin's direction in small, and that of an arc's sense in large.
fn letter(entry: &Option<Entry>) -> u8 {
    match entry {
        Some(Entry::Pin { direction, .. }) => match direction {
            Direction::Input => b'i',
            Direction::Inout => b'b',
            _ => b'o',
        },
        Some(Entry::Arc { kind, .. }) => match kind {
            ArcKind::Negative => b'N',
            _ => b'P',
        },
        None => b'-',
    }
}

/// The models of three cells.
fn three(alloc: Global, cells: &[&[u8]; 3]) -> Option<CellList>
    ensures { IfSome result (λ cells. length cells ≡ 3) }
{
    let mut models = CellList::new(alloc);
    models.push(built(alloc, SHAPES, cells[0]).ok()?).ok()?;
    models.push(built(alloc, SHAPES, cells[1]).ok()?).ok()?;
    models.push(built(alloc, SHAPES, cells[2]).ok()?).ok()?;
    Some(models)
}

/// The cells of three corners, and what they are refused for: the corner, the place, and the letters of the entries.
type Row = ([&'static [u8]; 3], usize, usize, u8, u8);

const ROWS: [Row; 6] = [
    ([b"inverter", b"inverter", b"no_arc"], 2, 3, b'N', b'-'),
    ([b"no_arc", b"input", b"no_arc"], 1, 3, b'-', b'i'),
    ([b"input", b"input", b"inout"], 2, 3, b'i', b'b'),
    ([b"inverter", b"buffer", b"no_arc"], 1, 3, b'N', b'P'),
    ([b"inverter", b"inverter", b"three_pins"], 2, 3, b'N', b'i'),
    ([b"three_pins", b"input", b"three_pins"], 1, 4, b'N', b'-'),
];

fn is_fault(fault: &ShapeFault, row: &Row) -> bool {
    fault.corner == row.1
        && fault.place == row.2
        && letter(&fault.first) == row.3
        && letter(&fault.other) == row.4
}

fn is_refused(alloc: Global, row: &Row) -> bool {
    let Some(cells) = three(alloc, &row.0) else {
        return false;
    };
    match join_corners::<Triple>(alloc, cells) {
        Err(JoinEnd::Shape(fault)) => is_fault(&fault, row),
        _ => false,
    }
}

fn first_other(alloc: Global) -> Option<usize> {
    for (number, row) in ROWS.iter().enumerate() {
        if !is_refused(alloc, row) {
            return Some(number);
        }
    }
    None
}

#[test]
fn shapes_that_differ(rt: HostRuntime) {
    assert_eq!(rt; first_other(rt.alloc()), None);
}

/// The capacitances of the pin A of a cell whose models have it with 1, 2 and 1 fF.
fn caps(set: &CellSet<Triple>) -> Option<[u64; 3]> {
    if set.pin_count() != 2 || set.arc_count() != 1 {
        return None;
    }
    Some([
        set.pin(0, Pick::Min).cap.0,
        set.pin(0, Pick::Typ).cap.0,
        set.pin(0, Pick::Max).cap.0,
    ])
}

fn joined_caps(alloc: Global) -> Option<[u64; 3]> {
    let cells = three(alloc, &[b"inverter", b"heavy", b"inverter"])?;
    caps(&join_corners(alloc, cells).ok()?)
}

#[test]
fn a_cell_at_three_corners(rt: HostRuntime) {
    assert_eq!(rt;
        joined_caps(rt.alloc()),
        Some([1_000_000, 2_000_000, 1_000_000])
    );
}
