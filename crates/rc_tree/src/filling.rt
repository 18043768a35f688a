//! The values of a tree, corner by corner.
ghost use Rattle.std.specs.Prelude.{◌≡◌, ℕ, ◌+◌, ◌*◌, ◌<◌, ◌≤◌, length, slice_index, slice_index_or, slice_set};
ghost use Rattle.corner_set.specs.Places.{place, HasRow};
ghost use Rattle.delay_units.specs.Bounds.{most_farads, most_ohms};
ghost use Rattle.rc_tree.specs.Arenas.{most_elements};
ghost use Rattle.rc_tree.specs.Values.{farads_at, ohms_at};
ghost use Rattle.rc_tree.specs.Numbering.{section_farads, sink_farads};
ghost use Rattle.rc_tree.specs.Filling.{KeepsOhms, KeepsFarads};

use crate::node_ids::NodeId;
use crate::pin_source::PinSource;
use corner_set::{CornerSet, Grid};
use delay_units::{Farads, Ohms};
use edge_io::Steps;
use spef_nets::Net;
use std::sync::ledger::Ledger;

/// Puts the resistance of each link into its row, which is not the first: one step a link.
pub fn fill_ohms<C: CornerSet, L: Ledger>(
    section: &Net<C>,
    vias: &[u32],
    corner: C::Index,
    ohms: &mut Grid<C, Ohms>,
    steps: &mut Steps<L>,
)
    requires room { length vias.now * C.COUNT ≤ length ohms.old.values }
    requires some { 0 < length vias.now }
    requires vias { (node : ℕ) → 0 < node → node < length vias.now → slice_index vias.now node < length section.now.joints }
    ensures root { ohms_at C.COUNT ohms.new.values 0 (C.number_of corner) ≡ ohms_at C.COUNT ohms.old.values 0 (C.number_of corner) }
    ensures links { (node : ℕ) → 0 < node → node < length vias.now
        → ohms_at C.COUNT ohms.new.values node (C.number_of corner)
        ≡ ohms_at C.COUNT section.now.ohms (slice_index vias.now node) (C.number_of corner) }
    ensures small { (node : ℕ) → 0 < node → node < length vias.now → ohms_at C.COUNT ohms.new.values node (C.number_of corner) ≤ most_ohms }
    ensures others { KeepsOhms C.COUNT ohms.old.values ohms.new.values (C.number_of corner) }
    ensures steps { steps.new + 1 ≤ steps.old + length vias.now }
{
    for node in 1..vias.len() {
        let resistor = section.res(vias[node] as usize, corner, steps);
        ohms.set(node, corner, resistor.ohms);
    }
}

/// Adds the capacitances of the section at the rows of their nodes: one step each.
pub fn fill_farads<C: CornerSet, L: Ledger>(
    section: &Net<C>,
    spots: &[u32],
    corner: C::Index,
    farads: &mut Grid<C, Farads>,
    steps: &mut Steps<L>,
)
    requires spots_len { length spots.now ≡ length section.now.nodes }
    requires spots { (node : ℕ) → node < length spots.now → HasRow C.COUNT farads.old.values (slice_index spots.now node) }
    requires none { (row : ℕ) → HasRow C.COUNT farads.old.values row → farads_at C.COUNT farads.old.values row (C.number_of corner) ≡ 0 }
    requires few { length section.now.caps ≤ 2 * most_elements }
    ensures nodes { (row : ℕ) → HasRow C.COUNT farads.old.values row
        → farads_at C.COUNT farads.new.values row (C.number_of corner)
        ≡ section_farads C.COUNT section.now spots.now (C.number_of corner) row }
    ensures small { (row : ℕ) → HasRow C.COUNT farads.old.values row
        → farads_at C.COUNT farads.new.values row (C.number_of corner) ≤ length section.now.caps * most_farads }
    ensures others { KeepsFarads C.COUNT farads.old.values farads.new.values (C.number_of corner) }
    ensures within { (place : ℕ) → place < length section.now.caps → slice_index section.now.caps place < length section.now.nodes }
    ensures each { (place : ℕ) → place < length section.now.caps
        → farads_at C.COUNT section.now.farads place (C.number_of corner) ≤ most_farads }
    ensures steps { steps.new ≡ steps.old + length section.now.caps }
{
    for place in 0..section.cap_count() {
        let (node, value) = section.cap(place, corner, steps);
        add_farads(farads, spots[node] as usize, corner, value);
    }
}

/// Adds the loads of the sinks at their rows.
pub fn fill_loads<C: CornerSet, P: PinSource<C>>(
    section: &Net<C>,
    pins: &P,
    sinks: &[NodeId],
    corner: C::Index,
    farads: &mut Grid<C, Farads>,
)
    requires sinks_len { length sinks.now ≡ length (P.pins pins.now section.now).sinks }
    requires sinks { (sink : ℕ) → sink < length sinks.now
        → HasRow C.COUNT farads.old.values (slice_index_or sinks.now sink (record { 0 = 0 })).0 }
    requires small { (row : ℕ) → HasRow C.COUNT farads.old.values row
        → farads_at C.COUNT farads.old.values row (C.number_of corner) + length sinks.now * most_farads ≤ 2 * most_elements * most_farads }
    ensures nodes { (row : ℕ) → HasRow C.COUNT farads.old.values row
        → farads_at C.COUNT farads.new.values row (C.number_of corner)
        ≡ farads_at C.COUNT farads.old.values row (C.number_of corner) + sink_farads C.COUNT (P.pins pins.now section.now) sinks.now
        (C.number_of corner) row }
    ensures each { (sink : ℕ) → sink < length sinks.now
        → farads_at C.COUNT (P.pins pins.now section.now).loads sink (C.number_of corner) ≤ most_farads }
    ensures others { KeepsFarads C.COUNT farads.old.values farads.new.values (C.number_of corner) }
{
    for sink in 0..sinks.len() {
        let value = pins.sink_load(section, sink, corner);
        add_farads(farads, sinks[sink].0 as usize, corner, value);
    }
}

// Adds a capacitance at a row.
fn add_farads<C: CornerSet>(
    farads: &mut Grid<C, Farads>,
    row: usize,
    corner: C::Index,
    value: Farads,
)
    requires row { HasRow C.COUNT farads.old.values row }
    requires small { farads_at C.COUNT farads.old.values row (C.number_of corner) ≤ 2 * most_elements * most_farads }
    requires value { value.0 ≤ most_farads }
    ensures { farads.new.values ≡ slice_set farads.old.values (place C.COUNT row (C.number_of corner))
        (record { 0 = farads_at C.COUNT farads.old.values row (C.number_of corner) + value.0 }) }
{
    let held = farads.get(row, corner);
    farads.set(row, corner, Farads(held.0 + value.0));
}
