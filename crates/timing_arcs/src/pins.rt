//! The pins of a cell (Liberty, `pin`).
ghost use Rattle.std.specs.Prelude.{◌≡◌, ℕ, ◌++◌, ◌∷◌, [], ◌<◌, ◌≤◌, ◌^◌, length, List, All, Contains, flat_map, filter, codes, Some, None, IfOk, OnOk, IfErr, IfSome, IfNone, slice_get, drop, fold, map};
ghost use Rattle.std.specs.List.{AllZip};
ghost use Rattle.liberty_groups.specs.Tables.{Tables, tree_of, group_at, IsGroup};
ghost use Rattle.liberty_tables.specs.declared.faults.CellFault.TheVariants.{BadNumber};
ghost use Rattle.liberty_tables.specs.Library.{is_named};
ghost use Rattle.liberty_tables.specs.LibraryUnits.{IsLoadUnit};
ghost use Rattle.timing_arcs.specs.PinModel.{PinEntry, direction_named, direction_of, entries_of, with_entry, pins_of, IsPin, IsPinCapacitance, default_texts, IsCapacitance};
ghost use Rattle.timing_arcs.specs.PinTable.{entry_at, entries_in, ArePins};
ghost use Rattle.timing_arcs.specs.PinReadings.{IsReadingOf};
ghost use Rattle.timing_arcs.specs.CellFaults.{pin_questions, IsSound, IsRefusal};

use crate::capacitances::capacitance_of;
use cell_models::{Direction, Pin};
use delay_units::{Farads, Unit};
use edge_io::{OutOfMemory, Text};
use liberty_groups::{GroupId, GroupTree};
use liberty_tables::{CellFault, is_named, value_in};
use name_table::{NameId, Names};
use std::alloc::Global;

/// The most names of a table of names.
const MOST_NAMES: usize = 1 << 30;

/// The names of a cell's pins, each once, and the `pin` group of each.
#[derive(Drop)]
pub(crate) struct PinTable {
    pub names: Names,
    pub groups: Vec<GroupId>,
}

impl PinTable {
    /// The name of a pin.
    fn name(&self, place: usize) -> &[u8]
        requires { place < length self.now.names }
        ensures { slice_get self.now.names place ≡ Some result.now }
    {
        let _count = self.names.len();
        self.names.text(NameId(place as u32))
    }

    /// Its group.
    pub fn group(&self, place: usize) -> GroupId
        requires { place < length self.now.groups.items }
        ensures { slice_get self.now.groups.items place ≡ Some result }
    {
        self.groups[place]
    }
}

fn direction_named(text: &[u8]) -> Option<Direction>
    ensures { result ≡ direction_named text.now }
{
    if text == b"input".as_slice() {
        Some(Direction::Input)
    } else if text == b"output".as_slice() {
        Some(Direction::Output)
    } else if text == b"inout".as_slice() {
        Some(Direction::Inout)
    } else if text == b"internal".as_slice() {
        Some(Direction::Internal)
    } else {
        None
    }
}

/// The direction of a `pin` group, if it is one.
#[tactic(auto, unfolding(crate::specs::PinModel::direction_of))]
fn direction_of(tree: &GroupTree, pin: GroupId) -> Option<Direction>
    requires { IsGroup tree.now pin.0 }
    ensures { result ≡ direction_of (group_at tree.now pin.0) }
{
    direction_named(value_in(tree, pin, b"direction")?)
}

// The capacitance of a pin: of one that is no input, 0.
fn grains_of(
    tree: &GroupTree,
    unit: &Unit,
    default: Option<u64>,
    direction: Direction,
    pin: GroupId,
) -> Option<u64>
    requires pin { IsGroup tree.now pin.0 }
    requires direction { direction_of (group_at tree.now pin.0) ≡ Some direction }
    requires unit { IsLoadUnit (tree_of tree.now) unit.now }
    requires some { IfSome default (IsCapacitance unit.now (default_texts (tree_of tree.now))) }
    requires none { IfNone default ((grains : ℕ) → ¬ IsCapacitance unit.now (default_texts (tree_of tree.now)) grains) }
    ensures some { IfSome result (IsPinCapacitance direction (tree_of tree.now) (group_at tree.now pin.0)) }
    ensures sound { IfSome result (λ _. (name : List ℕ)
        → All (IsSound (tree_of tree.now)) (pin_questions (record { name = name; group = group_at tree.now pin.0 }))) }
    ensures none { IfNone result ((name : List ℕ)
        → IsRefusal (tree_of tree.now) (pin_questions (record { name = name; group = group_at tree.now pin.0 })) BadNumber) }
{
    match direction {
        Direction::Input => capacitance_of(tree, unit, default, pin),
        _ => Some(0),
    }
}

/// What a `pin` group says of each of its names.
#[derive(Clone, Copy)]
struct PinReading {
    group: GroupId,
    direction: Direction,
    cap: Farads,
}

// What a `pin` group says.
fn read_group(
    tree: &GroupTree,
    unit: &Unit,
    default: Option<u64>,
    group: GroupId,
) -> Result<PinReading, CellFault>
    requires group { IsGroup tree.now group.0 }
    requires unit { IsLoadUnit (tree_of tree.now) unit.now }
    requires some { IfSome default (IsCapacitance unit.now (default_texts (tree_of tree.now))) }
    requires none { IfNone default ((grains : ℕ) → ¬ IsCapacitance unit.now (default_texts (tree_of tree.now)) grains) }
    ensures ok { IfOk result (IsReadingOf tree.now group) }
    ensures refused { (name : List ℕ) → IfErr result (IsRefusal (tree_of tree.now) (pin_questions (entry_at tree.now name group))) }
{
    let Some(direction) = direction_of(tree, group) else {
        return Err(CellFault::BadDirection);
    };
    let Some(grains) = grains_of(tree, unit, default, direction, group) else {
        return Err(CellFault::BadNumber);
    };
    Ok(PinReading {
        group,
        direction,
        cap: Farads(grains),
    })
}

// What the group of a name says. The names that one group adds stand together, so that a group is read once for all of them.
fn read_once(
    tree: &GroupTree,
    unit: &Unit,
    default: Option<u64>,
    last: Option<PinReading>,
    group: GroupId,
) -> Result<PinReading, CellFault>
    requires group { IsGroup tree.now group.0 }
    requires unit { IsLoadUnit (tree_of tree.now) unit.now }
    requires some { IfSome default (IsCapacitance unit.now (default_texts (tree_of tree.now))) }
    requires none { IfNone default ((grains : ℕ) → ¬ IsCapacitance unit.now (default_texts (tree_of tree.now)) grains) }
    requires last { IfSome last (λ reading. IsReadingOf tree.now reading.group reading) }
    ensures ok { IfOk result (IsReadingOf tree.now group) }
    ensures refused { (name : List ℕ) → IfErr result (IsRefusal (tree_of tree.now) (pin_questions (entry_at tree.now name group))) }
{
    match last {
        Some(reading) if reading.group == group => Ok(reading),
        _ => read_group(tree, unit, default, group),
    }
}

/// A pin of a name, with what its group says.
fn pin_of(alloc: Global, name: &[u8], reading: PinReading) -> Result<Pin, OutOfMemory>
    ensures { (tree : Tables) (group : GroupId) → IsReadingOf tree group reading
        → IfOk result (IsPin (tree_of tree) (entry_at tree name.now group)) }
{
    let name = Text::from_bytes(alloc, name)?;
    Ok(Pin {
        name,
        direction: reading.direction,
        cap: reading.cap,
    })
}

// A name that does not stand yet.
#[tactic(auto, using(crate::proofs::PinLemmas::new_entry))]
fn add_new(
    names: &mut Names,
    groups: &mut Vec<GroupId>,
    name: &[u8],
    group: GroupId,
) -> Result<(), OutOfMemory>
    requires even { length names.old ≡ length groups.old.items }
    requires absent { ¬ Contains names.old name.now }
    ensures names { OnOk result (names.new ≡ names.old ++ name.now ∷ []) }
    ensures groups { OnOk result (groups.new.items ≡ groups.old.items ++ group ∷ []) }
{
    if names.len() >= MOST_NAMES {
        return Err(OutOfMemory);
    }
    if groups.push(group).is_err() {
        return Err(OutOfMemory);
    }
    names.intern(name)?;
    Ok(())
}

// A name of a group, unless it stands already.
fn add_name(
    names: &mut Names,
    groups: &mut Vec<GroupId>,
    name: &[u8],
    group: GroupId,
) -> Result<(), OutOfMemory>
    requires even { length names.old ≡ length groups.old.items }
    ensures even { OnOk result (length names.new ≡ length groups.new.items) }
    ensures entries { (tree : Tables) → OnOk result
        (entries_in tree names.new groups.new.items
        ≡ with_entry (entries_in tree names.old groups.old.items) (entry_at tree name.now group)) }
    ensures within { (tree : Tables) → IsGroup tree group.0 → All (λ id. IsGroup tree id.0) groups.old.items
        → OnOk result (All (λ id. IsGroup tree id.0) groups.new.items) }
{
    match names.find(name) {
        Some(_) => Ok(()),
        None => add_new(names, groups, name, group),
    }
}

// The names of a group, in order.
fn add_names(
    tree: &GroupTree,
    names: &mut Names,
    groups: &mut Vec<GroupId>,
    group: GroupId,
) -> Result<(), OutOfMemory>
    requires group { IsGroup tree.now group.0 }
    requires even { length names.old ≡ length groups.old.items }
    requires within { All (λ id. IsGroup tree.now id.0) groups.old.items }
    ensures even { OnOk result (length names.new ≡ length groups.new.items) }
    ensures within { OnOk result (All (λ id. IsGroup tree.now id.0) groups.new.items) }
    ensures entries { OnOk result (entries_in tree.now names.new groups.new.items
        ≡ fold with_entry (entries_in tree.now names.old groups.old.items) (entries_of (group_at tree.now group.0))) }
{
    for place in 0..tree.arg_count(group) {
        add_name(names, groups, tree.arg(group, place).bytes(), group)?;
    }
    Ok(())
}

// The names of a group that is a `pin` group.
fn add_group(
    tree: &GroupTree,
    names: &mut Names,
    groups: &mut Vec<GroupId>,
    group: GroupId,
) -> Result<(), OutOfMemory>
    requires group { IsGroup tree.now group.0 }
    requires even { length names.old ≡ length groups.old.items }
    requires within { All (λ id. IsGroup tree.now id.0) groups.old.items }
    ensures even { OnOk result (length names.new ≡ length groups.new.items) }
    ensures within { OnOk result (All (λ id. IsGroup tree.now id.0) groups.new.items) }
    ensures entries { OnOk result (entries_in tree.now names.new groups.new.items
        ≡ fold with_entry (entries_in tree.now names.old groups.old.items)
        (flat_map entries_of (filter (is_named (codes "pin")) (group_at tree.now group.0 ∷ [])))) }
{
    if !is_named(tree, group, b"pin") {
        return Ok(());
    }
    add_names(tree, names, groups, group)?;
    Ok(())
}

/// The names of the pins of a cell: a name's first group counts.
pub(crate) fn pin_table(
    alloc: Global,
    tree: &GroupTree,
    cell: GroupId,
) -> Result<PinTable, OutOfMemory>
    requires { IsGroup tree.now cell.0 }
    ensures { IfOk result (λ table. ArePins tree.now (group_at tree.now cell.0) table.names table.groups.items) }
{
    let mut names = Names::new(alloc);
    let mut groups = Vec::new(alloc);
    for place in 0..tree.child_count(cell) {
        add_group(tree, &mut names, &mut groups, tree.child(cell, place))?;
    }
    Ok(PinTable { names, groups })
}

/// The pins of a cell, in the order of their names.
#[tactic(auto, using(crate::specs::CellFaults::no_memory))]
pub(crate) fn read_pins(
    alloc: Global,
    tree: &GroupTree,
    unit: &Unit,
    default: Option<u64>,
    table: &PinTable,
) -> Result<Vec<Pin>, CellFault>
    requires unit { IsLoadUnit (tree_of tree.now) unit.now }
    requires some { IfSome default (IsCapacitance unit.now (default_texts (tree_of tree.now))) }
    requires none { IfNone default ((grains : ℕ) → ¬ IsCapacitance unit.now (default_texts (tree_of tree.now)) grains) }
    requires even { length table.now.names ≡ length table.now.groups.items }
    requires within { All (λ id. IsGroup tree.now id.0) table.now.groups.items }
    ensures ok { IfOk result (λ pins. AllZip (IsPin (tree_of tree.now))
        (entries_in tree.now table.now.names table.now.groups.items) pins.items) }
    ensures sound { OnOk result
        (All (IsSound (tree_of tree.now)) (flat_map pin_questions (entries_in tree.now table.now.names table.now.groups.items))) }
    ensures refused { IfErr result
        (IsRefusal (tree_of tree.now) (flat_map pin_questions (entries_in tree.now table.now.names table.now.groups.items))) }
{
    let mut pins = Vec::new(alloc);
    let mut last = None;
    for place in 0..table.groups.len() {
        let name = table.name(place);
        let reading = read_once(tree, unit, default, last, table.group(place))?;
        let pin = pin_of(alloc, name, reading)?;
        if pins.push(pin).is_err() {
            return Err(CellFault::OutOfMemory);
        }
        last = Some(reading);
    }
    Ok(pins)
}
