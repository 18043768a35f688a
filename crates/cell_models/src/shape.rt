//! The shape of a cell: what its timing models at all corners have in common, its pins in order and then its arcs.
ghost use Rattle.std.specs.Prelude.{◌≡◌, ◌≢◌, ℕ, ◌+◌, ◌^◌, ◌<◌, ◌≤◌, ◌↔◌, length, slice_get, Some, option_copied, option_map, IsTrue, IfOk, IfSome, IfNone};
ghost use Rattle.cell_models.specs.Shapes.{pin_entry, arc_entry, shape_of};
ghost use Rattle.cell_models.specs.Joining.{DifferFirst};

use crate::cell::{Arc, ArcKind, Cell, Direction, Pin};
use edge_io::{OutOfMemory, Text};
use std::alloc::Global;

/// An entry of the shape of a cell.
#[derive(Drop)]
pub enum Entry {
    /// A pin, but for its capacitance.
    Pin {
        name: Text,
        direction: Direction,
    },

    /// An arc, from the place of one pin to that of another, with whether it has a rise and a fall.
    Arc {
        from: usize,
        to: usize,
        kind: ArcKind,
        rise: bool,
        fall: bool,
    },
}

/// Where the shape of a cell at one corner first differs from its shape at the first corner.
#[derive(Drop)]
pub struct ShapeFault {
    /// The number of the corner, from 0.
    pub corner: usize,

    /// The place in the shape, from 1: pins come first, then arcs.
    pub place: usize,

    /// What stands there at the first corner, or `None` past the end of that shape.
    pub first: Option<Entry>,

    /// What stands there at this corner, or `None` past the end of its shape.
    pub other: Option<Entry>,
}

fn is_same_pin(one: &Pin, other: &Pin) -> bool
    ensures { IsTrue result ↔ (pin_entry one.now ≡ pin_entry other.now) }
{
    one.name.bytes() == other.name.bytes() && one.direction == other.direction
}

fn is_same_arc(one: &Arc, other: &Arc) -> bool
    ensures { IsTrue result ↔ (arc_entry one.now ≡ arc_entry other.now) }
{
    one.from == other.from
        && one.to == other.to
        && one.kind == other.kind
        && one.rise.is_some() == other.rise.is_some()
        && one.fall.is_some() == other.fall.is_some()
}

// How many entries the shape has.
fn entry_count(cell: &Cell) -> usize
    ensures { result ≡ length (shape_of cell.now) }
{
    cell.pins().len() + cell.arcs().len()
}

// The pin at a place.
#[tactic(auto, using(crate::proofs::ShapeLemmas::no_pin))]
fn pin_at(cell: &Cell, place: usize) -> Option<&Pin>
    ensures pin { IfSome result (λ pin. slice_get (shape_of cell.now) place ≡ Some (pin_entry pin.now)) }
    ensures past { IfNone result (length cell.now.pins ≤ place) }
    ensures no_pin { IfNone result ((pin : _) → slice_get (shape_of cell.now) place ≢ Some (pin_entry pin)) }
{
    cell.pins().get(place)
}

// The arc at a place past the pins.
fn arc_behind(cell: &Cell, place: usize) -> Option<&Arc>
    requires { length cell.now.pins ≤ place }
    ensures { option_map arc_entry (option_copied result) ≡ slice_get (shape_of cell.now) place }
{
    cell.arcs().get(place - cell.pins().len())
}

fn is_same_behind(one: &Cell, other: &Cell, place: usize) -> bool
    requires one { length one.now.pins ≤ place }
    requires other { length other.now.pins ≤ place }
    ensures { IsTrue result ↔ (slice_get (shape_of one.now) place ≡ slice_get (shape_of other.now) place) }
{
    match (arc_behind(one, place), arc_behind(other, place)) {
        (Some(one), Some(other)) => is_same_arc(one, other),
        (None, None) => true,
        _ => false,
    }
}

// Whether two shapes have the same at a place.
fn is_same_at(one: &Cell, other: &Cell, place: usize) -> bool
    ensures { IsTrue result ↔ (slice_get (shape_of one.now) place ≡ slice_get (shape_of other.now) place) }
{
    match (pin_at(one, place), pin_at(other, place)) {
        (Some(one), Some(other)) => is_same_pin(one, other),
        (None, None) => is_same_behind(one, other, place),
        _ => false,
    }
}

/// The first place, from 0, at which the shapes of two cells differ.
pub(crate) fn first_difference(one: &Cell, other: &Cell) -> Option<usize>
    ensures some { IfSome result (DifferFirst (shape_of one.now) (shape_of other.now)) }
    ensures counted { IfSome result (λ place. place + 1 < 2 ^ 64) }
    ensures none { IfNone result (shape_of other.now ≡ shape_of one.now) }
{
    for place in 0..entry_count(one).max(entry_count(other)) {
        if !is_same_at(one, other, place) {
            return Some(place);
        }
    }
    None
}

fn copied_pin(alloc: Global, pin: &Pin) -> Result<Entry, OutOfMemory>
    ensures { IfOk result (λ entry. entry ≡ pin_entry pin.now) }
{
    let name = Text::from_bytes(alloc, pin.name.bytes())?;
    Ok(Entry::Pin {
        name,
        direction: pin.direction,
    })
}

fn arc_entry_of(arc: &Arc) -> Entry
    ensures { result ≡ arc_entry arc.now }
{
    Entry::Arc {
        from: arc.from,
        to: arc.to,
        kind: arc.kind,
        rise: arc.rise.is_some(),
        fall: arc.fall.is_some(),
    }
}

/// The entry at a place, from 0, or `None` past the end of the shape.
pub(crate) fn entry_at(
    alloc: Global,
    cell: &Cell,
    place: usize,
) -> Result<Option<Entry>, OutOfMemory>
    ensures { IfOk result (λ entry. entry ≡ slice_get (shape_of cell.now) place) }
{
    if let Some(pin) = pin_at(cell, place) {
        let entry = copied_pin(alloc, pin)?;
        return Ok(Some(entry));
    }
    match arc_behind(cell, place) {
        Some(arc) => Ok(Some(arc_entry_of(arc))),
        None => Ok(None),
    }
}
