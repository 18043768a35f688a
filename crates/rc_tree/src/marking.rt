//! The numbers of a net's nodes where its pins are the connections of its section. They are found by the section's own numbers:
//! no name is read.
ghost use Rattle.std.specs.Prelude.{◌≡◌, ℕ, ◌-◌, ◌^◌, ◌<◌, List, length, map, OnOk};
ghost use Rattle.spef_nets.specs.Nodes.{AreDistinctNodes};
ghost use Rattle.rc_tree.specs.Nodes.{Node, node_of, with_nodes};
ghost use Rattle.rc_tree.specs.Pins.{pin_nodes};
ghost use Rattle.rc_tree.specs.SectionNets.{AreListed};
ghost use Rattle.rc_tree.specs.ListedPins.{listed_pins, other_place, IsWithin};
ghost use Rattle.rc_tree.specs.Marking.{Marks, Marked};
ghost use Rattle.rc_tree.specs.Searched.{IsNumbered};

use crate::listed_pins::ListedPins;
use crate::numbered::Numbered;
use corner_set::CornerSet;
use edge_io::OutOfMemory;
use edge_io::lists::refill;
use spef_nets::Net;

/// It stands for the number of a node that has none yet.
const NONE: u32 = u32::MAX;

// Gives a node the next number, where it has none.
#[tactic(auto, using(crate::specs::Marking::fresh, crate::specs::Marking::held))]
fn mark(numbered: &mut Numbered, node: usize) -> Result<(), OutOfMemory>
    requires { node < length numbered.old.spots.items }
    ensures { OnOk result (Marks (2 ^ 32 - 1) node numbered.old.spots.items numbered.old.count numbered.new.spots.items
        numbered.new.count) }
{
    if numbered.spots[node] != NONE {
        return Ok(());
    }
    if numbered.count >= NONE as usize {
        return Err(OutOfMemory);
    }
    numbered.spots[node] = numbered.count as u32;
    numbered.count += 1;
    Ok(())
}

// Numbers the nodes of the sinks, in order.
fn mark_sinks<C: CornerSet>(
    section: &Net<C>,
    pins: &ListedPins,
    numbered: &mut Numbered,
) -> Result<(), OutOfMemory>
    requires size { length numbered.old.spots.items ≡ length section.now.nodes }
    requires distinct { AreDistinctNodes section.now.nodes }
    ensures size { OnOk result (length numbered.new.spots.items ≡ length section.now.nodes) }
    ensures within { OnOk result ((k : ℕ) → k < length (listed_pins C.COUNT section.now pins.now.driver).sinks
        → IsWithin section.now (other_place pins.now.driver k)) }
    ensures marked { OnOk result ((nodes : List Node)
        → Marked (2 ^ 32 - 1) section.now.nodes nodes numbered.old.spots.items numbered.old.count
        → Marked (2 ^ 32 - 1) section.now.nodes (with_nodes nodes (map node_of (listed_pins C.COUNT section.now pins.now.driver).sinks))
        numbered.new.spots.items numbered.new.count) }
{
    for sink in 0..pins.len(section) {
        let node = section.conn(pins.place(sink)).node;
        mark(numbered, node)?;
    }
    Ok(())
}

// Numbers the nodes that are left, in order.
fn mark_rest<C: CornerSet>(section: &Net<C>, numbered: &mut Numbered) -> Result<(), OutOfMemory>
    requires size { length numbered.old.spots.items ≡ length section.now.nodes }
    requires distinct { AreDistinctNodes section.now.nodes }
    ensures size { OnOk result (length numbered.new.spots.items ≡ length section.now.nodes) }
    ensures marked { OnOk result ((nodes : List Node)
        → Marked (2 ^ 32 - 1) section.now.nodes nodes numbered.old.spots.items numbered.old.count
        → Marked (2 ^ 32 - 1) section.now.nodes (with_nodes nodes (map node_of section.now.nodes)) numbered.new.spots.items
        numbered.new.count) }
{
    for node in 0..section.node_count() {
        mark(numbered, node)?;
    }
    Ok(())
}

/// Numbers the nodes of a net whose pins are the connections of its section. Each connection is one of them.
pub fn number_listed<C: CornerSet>(
    section: &Net<C>,
    pins: &ListedPins,
    numbered: &mut Numbered,
) -> Result<(), OutOfMemory>
    requires { pins.now.driver < length section.now.conns }
    ensures numbered { OnOk result (IsNumbered section.now
        (listed_pins C.COUNT section.now pins.now.driver) numbered.new.spots.items numbered.new.count) }
    ensures listed { OnOk result (AreListed section.now (pin_nodes (listed_pins C.COUNT section.now pins.now.driver))) }
{
    refill(&mut numbered.spots, section.node_count(), NONE)?;
    numbered.count = 0;
    section.distinct();
    mark(numbered, section.conn(pins.driver).node)?;
    mark_sinks(section, pins, numbered)?;
    mark_rest(section, numbered)?;
    Ok(())
}
