//! Where the nodes of a section and the sinks stand in the order of a search.
ghost use Rattle.std.specs.Prelude.{◌≡◌, ℕ, ◌-◌, ◌<◌, length, replicate, slice_index, MatchOption, OnOk};
ghost use Rattle.rc_tree.specs.Searched.{IsNumbered, AreSinks};

use crate::found::Found;
use crate::node_ids::NodeId;
use crate::numbered::Numbered;
use crate::pin_source::PinSource;
use corner_set::CornerSet;
use edge_io::OutOfMemory;
use edge_io::lists::{empty, push};
use spef_nets::Net;

/// The place of the first zero, if there is one.
pub fn first_zero(values: &[u32]) -> Option<usize>
    ensures { MatchOption result ((k : ℕ) → k < length values.now → 0 < slice_index values.now k)
        (λ place. (place < length values.now) × (slice_index values.now place ≡ 0) × ((k : ℕ) → k < place → 0 < slice_index values.now k)) }
{
    for place in 0..values.len() {
        if values[place] == 0 {
            return Some(place);
        }
    }
    None
}

/// Makes a list the places of nodes, from one more than each.
pub fn put_places(nodes: &[u32], numbers: &[u32], places: &mut Vec<u32>) -> Result<(), OutOfMemory>
    requires { (k : ℕ) → k < length nodes.now → slice_index nodes.now k < length numbers.now }
    ensures size { OnOk result (length places.new.items ≡ length nodes.now) }
    ensures places { OnOk result ((k : ℕ) → k < length nodes.now
        → slice_index places.new.items k ≡ slice_index numbers.now (slice_index nodes.now k) - 1) }
{
    empty(places, nodes.len())?;
    for k in 0..nodes.len() {
        push(places, numbers[nodes[k] as usize].saturating_sub(1))?;
    }
    Ok(())
}

/// Makes a list the places of the sinks, where the search gives one more than the place of each node.
pub fn put_sinks<C: CornerSet, P: PinSource<C>>(
    section: &Net<C>,
    pins: &P,
    numbered: &Numbered,
    found: &Found,
    sinks: &mut Vec<NodeId>,
) -> Result<(), OutOfMemory>
    requires numbered { IsNumbered section.now (P.pins pins.now section.now) numbered.now.spots.items numbered.now.count }
    requires every { length found.now.numbers.items ≡ numbered.now.count }
    ensures size { OnOk result (length sinks.new.items ≡ length (P.pins pins.now section.now).sinks) }
    ensures sinks { OnOk result (AreSinks section.now (P.pins pins.now section.now) found.now.numbers.items sinks.new.items) }
{
    let many = pins.sink_count(section);
    empty(sinks, many)?;
    for sink in 0..many {
        let number = pins.sink_number(section, numbered, sink);
        let place = found.numbers[number].saturating_sub(1);
        push(sinks, NodeId(place))?;
    }
    Ok(())
}

/// Makes a list so many times the first node of a tree.
pub fn put_roots(sinks: &mut Vec<NodeId>, many: usize) -> Result<(), OutOfMemory>
    ensures { OnOk result (sinks.new.items ≡ replicate many (record { 0 = 0 })) }
{
    empty(sinks, many)?;
    sinks.resize(many, NodeId(0))?;
    Ok(())
}
