//! The numbers of a net's nodes: the driver's is 0, then come the sinks, then the other nodes of the section.
ghost use Rattle.std.specs.Prelude.{◌≡◌, ◌≢◌, ◌+◌, ◌≤◌, [], ◌∷◌, ◌++◌, length, map, IfOk, IfErr, OnOk, AllPairs};
ghost use Rattle.rc_tree.specs.Nodes.{node_of, with_nodes};
ghost use Rattle.rc_tree.specs.PinNames.{pin_name};
ghost use Rattle.rc_tree.specs.Pins.{pin_nodes};
ghost use Rattle.rc_tree.specs.Numbering.{AreSpots, AreEnds, Gets};
ghost use Rattle.rc_tree.specs.SectionNets.{AreListed};
ghost use Rattle.rc_tree.specs.Builds.{IsTreeEnd};
ghost use Rattle.rc_tree.specs.Searched.{IsNumbered};

use crate::ends::TreeEnd;
use crate::few_pins::FewPins;
use crate::node_table::NodeTable;
use crate::numbered::Numbered;
use crate::pin_names::PinName;
use crate::pin_table::{PinTable, Pins};
use crate::pins::PinLoads;
use corner_set::CornerSet;
use edge_io::lists::{empty, push, to_u32};
use edge_io::{OutOfMemory, Steps};
use name_table::NodeKey;
use spef_nets::Net;
use std::alloc::Global;
use std::sync::ledger::Ledger;

/// Fewer sinks than these are looked through: that is quicker than to look a node up in a table.
const FEW: usize = 16;

/// The ends of a net's resistors, by the numbers of its nodes.
#[derive(Drop)]
pub struct Ends {
    pub froms: Vec<u32>,
    pub tos: Vec<u32>,
}

/// Numbers the nodes of a net by their names, unless a connection of its section is none of the pins.
pub fn number_named<'k, C: CornerSet>(
    alloc: Global,
    pins: &PinLoads<'k, C>,
    section: &Net<'k, '_, C>,
    numbered: &mut Numbered,
) -> Result<(), TreeEnd>
    ensures numbered { OnOk result (IsNumbered section.now pins.now numbered.new.spots.items numbered.new.count) }
    ensures listed { OnOk result (AreListed section.now (pin_nodes pins.now)) }
    ensures refused { IfErr result (λ end. IsTreeEnd C.COUNT section.now pins.now end) }
{
    let table = number_pins(alloc, pins)?;
    number_by(alloc, &table, pins, section, numbered)
}

// The same, where the table of the pins is made. It is let go of in one place, where all ways out have come together.
fn number_by<'k, C: CornerSet>(
    alloc: Global,
    table: &PinTable<'k, '_>,
    pins: &PinLoads<'_, C>,
    section: &Net<'k, '_, C>,
    numbered: &mut Numbered,
) -> Result<(), TreeEnd>
    requires { table.now ≡ pin_nodes pins.now }
    ensures numbered { OnOk result (IsNumbered section.now pins.now numbered.new.spots.items numbered.new.count) }
    ensures listed { OnOk result (AreListed section.now (pin_nodes pins.now)) }
    ensures refused { IfErr result (λ end. IsTreeEnd C.COUNT section.now pins.now end) }
{
    numbered.count = number_section(alloc, table, section, &mut numbered.spots)?;
    refuse_stranger(alloc, pins, section, numbered)?;
    Ok(())
}

// Refuses the first connection that is none of the pins, which have the first numbers.
fn refuse_stranger<C: CornerSet>(
    alloc: Global,
    pins: &PinLoads<'_, C>,
    section: &Net<C>,
    numbered: &Numbered,
) -> Result<(), TreeEnd>
    requires { IsNumbered section.now pins.now numbered.now.spots.items numbered.now.count }
    ensures listed { OnOk result (AreListed section.now (pin_nodes pins.now)) }
    ensures refused { IfErr result (λ end. IsTreeEnd C.COUNT section.now pins.now end) }
{
    let sinks = pins.len();
    for place in 0..section.conn_count() {
        let node = section.conn(place).node;
        if numbered.spots[node] as usize > sinks {
            let name = section.node_name(alloc, node)?;
            return Err(TreeEnd::StrangePin(name));
        }
    }
    Ok(())
}

// The pins, in order. A few are looked through where they stand.
fn number_pins<'p, 's, C: CornerSet>(
    alloc: Global,
    pins: &'s PinLoads<'p, C>,
) -> Result<PinTable<'p, 's>, OutOfMemory>
    ensures { IfOk result (λ table. table ≡ pin_nodes pins.now) }
{
    if pins.len() < FEW {
        let few = FewPins::new(pins.driver, pins.sinks.as_slice());
        return Ok(PinTable {
            pins: Pins::Few(few),
        });
    }
    let table = pin_table(alloc, pins)?;
    Ok(PinTable {
        pins: Pins::Many(table),
    })
}

// A table of the pins, in order.
fn pin_table<'p, C: CornerSet>(
    alloc: Global,
    pins: &PinLoads<'p, C>,
) -> Result<NodeTable<'p>, OutOfMemory>
    ensures { IfOk result (λ table. table ≡ pin_nodes pins.now) }
{
    let mut table = NodeTable::with_room(alloc, pins.len().saturating_add(1))?;
    intern_pins(&mut table, pins)?;
    Ok(table)
}

// Puts the pins into a table that holds none.
fn intern_pins<'p, C: CornerSet>(
    table: &mut NodeTable<'p>,
    pins: &PinLoads<'p, C>,
) -> Result<(), OutOfMemory>
    requires { table.old ≡ [] }
    ensures { OnOk result (table.new ≡ pin_nodes pins.now) }
{
    table.intern(pins.driver.key())?;
    intern_all(table, pins.sinks.as_slice())?;
    Ok(())
}

// Puts nodes at the end, each where it is not there already.
fn intern_all<'p>(table: &mut NodeTable<'p>, names: &[PinName<'p>]) -> Result<(), OutOfMemory>
    ensures { OnOk result (table.new ≡ with_nodes table.old (map node_of (map pin_name names.now))) }
{
    for name in names {
        table.intern(name.key())?;
    }
    Ok(())
}

// The numbers of the section's nodes, and how many nodes there are with the pins. The section's nodes differ from one another, so each
// is a pin or a new node: the table holds the pins alone.
fn number_section<'k, C: CornerSet>(
    alloc: Global,
    table: &PinTable<'k, '_>,
    section: &Net<'k, '_, C>,
    spots: &mut Vec<u32>,
) -> Result<usize, OutOfMemory>
    ensures spots { OnOk result (AreSpots section.now.nodes (with_nodes table.now (map node_of section.now.nodes)) spots.new.items) }
    ensures count { IfOk result (λ count. count ≡ length (with_nodes table.now (map node_of section.now.nodes))) }
    ensures apart { OnOk result (AllPairs (λ one other. one ≢ other) (with_nodes table.now (map node_of section.now.nodes))) }
{
    section.distinct();
    empty(spots, section.node_count())?;
    let mut keys = section.keys();
    let mut count = table.len();
    for node in 0..section.node_count() {
        // all pins are found where it has as many nodes so far as there are with them: no name is read of those behind
        if spots.len() == count {
            count = number_new(count, spots)?;
        } else {
            let key = keys.key(alloc, node)?;
            count = number_node(table, &key, count, spots)?;
        }
    }
    Ok(count)
}

// Notes the number of a node that is not among the earlier ones of its section: a pin has its own, another gets the next. It answers how
// many nodes there are with it. The pins come first in a section as a rule, and in the order in which they have their numbers.
#[inline(always)]
fn number_node<'k>(
    table: &PinTable<'k, '_>,
    key: &NodeKey<'k>,
    count: usize,
    spots: &mut Vec<u32>,
) -> Result<usize, OutOfMemory>
    ensures { IfOk result (Gets table.now key.now count spots.old.items spots.new.items) }
{
    match table.find(key, spots.len()) {
        Some(number) => {
            push(spots, to_u32(number)?)?;
            Ok(count)
        }
        None => number_new(count, spots),
    }
}

// Notes the number of a node that is no pin: the next one. It answers how many nodes there are with it.
fn number_new(count: usize, spots: &mut Vec<u32>) -> Result<usize, OutOfMemory>
    ensures spots { OnOk result (spots.new.items ≡ spots.old.items ++ count ∷ []) }
    ensures count { IfOk result (λ next. next ≡ count + 1) }
{
    push(spots, to_u32(count)?)?;
    Ok(count + 1)
}

/// The ends of the resistors, from the numbers of the section's nodes: one step a resistor.
pub fn copy_ends<C: CornerSet, L: Ledger>(
    section: &Net<C>,
    spots: &[u32],
    corner: C::Index,
    ends: &mut Ends,
    steps: &mut Steps<L>,
) -> Result<(), OutOfMemory>
    requires { length spots.now ≡ length section.now.nodes }
    ensures ends { OnOk result (AreEnds section.now spots.now ends.new.froms.items ends.new.tos.items) }
    ensures steps { steps.new ≤ steps.old + length section.now.joints }
{
    empty(&mut ends.froms, section.res_count())?;
    empty(&mut ends.tos, section.res_count())?;
    for place in 0..section.res_count() {
        let resistor = section.res(place, corner, steps);
        push(&mut ends.froms, spots[resistor.a])?;
        push(&mut ends.tos, spots[resistor.b])?;
    }
    Ok(())
}
