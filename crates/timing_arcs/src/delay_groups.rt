//! The delay groups of a cell and their arcs (Liberty, `timing`).
ghost use Rattle.std.specs.Prelude.{◌≡◌, ℕ, ◌<◌, ◌++◌, ◌∷◌, [], length, List, All, Some, IfOk, OnOk, IfErr, IfSome, IfNone, slice_get, flat_map, filter, map, codes, unwrap_or};
ghost use Rattle.std.specs.Option.{option_map};
ghost use Rattle.liberty_groups.specs.Groups.{Group, groups_of};
ghost use Rattle.liberty_groups.specs.Tables.{tree_of, group_at, IsGroup};
ghost use Rattle.liberty_tables.specs.Library.{value_in};
ghost use Rattle.timing_arcs.specs.PinModel.{PinEntry, is_output};
ghost use Rattle.timing_arcs.specs.DelayGroups.{is_delay_type, is_delay_group, delays_in, kind_of, ArcEntry, arcs_in, AreEdgeTables, IsRise, IsFall, IsArc};
ghost use Rattle.timing_arcs.specs.LibraryBasis.{IsTiming, arc_from, AddsArcs, AreAdded, arcs_from, questions_from, IsNoMemory};
ghost use Rattle.timing_arcs.specs.CellReading.{entries_of, library_of, delay_at};
ghost use Rattle.timing_arcs.specs.CellFaults.{edge_questions, rise_questions, fall_questions, delay_questions, IsSound, IsRefusal};

use crate::cell_reading::CellReading;
use crate::related_pins::related_places;
use cell_models::{Arc, ArcKind, Direction, EdgeTables};
use edge_io::OutOfMemory;
use liberty_groups::{GroupId, GroupTree};
use liberty_tables::{CellFault, first_group, is_named, value_in};
use std::alloc::Global;

fn is_delay_type(text: &[u8]) -> bool
    ensures { result ≡ is_delay_type (Some text.now) }
{
    text == b"combinational".as_slice()
        || text == b"combinational_rise".as_slice()
        || text == b"combinational_fall".as_slice()
        || text == b"rising_edge".as_slice()
        || text == b"falling_edge".as_slice()
        || text == b"preset".as_slice()
        || text == b"clear".as_slice()
}

fn has_delay_type(tree: &GroupTree, group: GroupId) -> bool
    requires { IsGroup tree.now group.0 }
    ensures { result ≡ is_delay_type (value_in (codes "timing_type") (group_at tree.now group.0)) }
{
    match value_in(tree, group, b"timing_type") {
        Some(text) => is_delay_type(text),
        None => true,
    }
}

/// Whether a `timing` group is a delay group: of a type that is a delay, with a delay table.
#[tactic(auto, unfolding(crate::specs::DelayGroups::is_delay_group))]
fn is_delay_group(tree: &GroupTree, group: GroupId) -> bool
    requires { IsGroup tree.now group.0 }
    ensures { result ≡ is_delay_group (group_at tree.now group.0) }
{
    is_named(tree, group, b"timing")
        && has_delay_type(tree, group)
        && (first_group(tree, group, b"cell_rise").is_some()
            || first_group(tree, group, b"cell_fall").is_some())
}

fn text_in<'a>(tree: &'a GroupTree, group: GroupId, key: &[u8]) -> &'a [u8]
    requires { IsGroup tree.now group.0 }
    ensures { result.now ≡ unwrap_or (value_in key.now (group_at tree.now group.0)) [] }
{
    match value_in(tree, group, key) {
        Some(text) => text,
        None => &[],
    }
}

/// Which edges of the input an edge of the output follows.
#[tactic(auto, unfolding(crate::specs::DelayGroups::kind_of))]
fn kind_of(tree: &GroupTree, group: GroupId) -> ArcKind
    requires { IsGroup tree.now group.0 }
    ensures { result ≡ kind_of (group_at tree.now group.0) }
{
    let type_ = text_in(tree, group, b"timing_type");
    let sense = text_in(tree, group, b"timing_sense");
    if type_ == b"rising_edge".as_slice() {
        ArcKind::RisingEdge
    } else if type_ == b"falling_edge".as_slice() {
        ArcKind::FallingEdge
    } else if sense == b"positive_unate".as_slice() {
        ArcKind::Positive
    } else if sense == b"negative_unate".as_slice() {
        ArcKind::Negative
    } else {
        ArcKind::Both
    }
}

// The tables of an edge that has a delay table.
#[tactic(auto, using(crate::proofs::EdgeLemmas::edge_ok, crate::proofs::EdgeLemmas::edge_sound, crate::proofs::EdgeLemmas::delay_refused, crate::proofs::EdgeLemmas::transition_missing, crate::proofs::EdgeLemmas::slew_refused))]
fn read_tables(
    alloc: Global,
    cell: &CellReading<'_>,
    delay: GroupId,
    slew: Option<GroupId>,
) -> Result<EdgeTables, CellFault>
    requires delay { IsGroup cell.now.tree delay.0 }
    requires slew { IfSome slew (λ slew. IsGroup cell.now.tree slew.0) }
    ensures ok { IfOk result (λ tables. AreEdgeTables (library_of cell.now) (Some (group_at cell.now.tree delay.0))
        (option_map (λ slew. group_at cell.now.tree slew.0) slew) (Some tables)) }
    ensures sound { OnOk result
        (All (IsSound (library_of cell.now))
        (edge_questions (Some (group_at cell.now.tree delay.0)) (option_map (λ slew. group_at cell.now.tree slew.0) slew))) }
    ensures refused { IfErr result
        (IsRefusal (library_of cell.now)
        (edge_questions (Some (group_at cell.now.tree delay.0)) (option_map (λ slew. group_at cell.now.tree slew.0) slew))) }
{
    let table = match cell.delay_table(alloc, delay) {
        Ok(table) => table,
        Err(fault) => return Err(fault),
    };
    let Some(slew) = slew else {
        return Err(CellFault::NoTransition);
    };
    match cell.transition_table(alloc, slew) {
        Ok(slew) => Ok(EdgeTables { delay: table, slew }),
        Err(fault) => Err(fault),
    }
}

// The tables of an edge, if it has any.
#[tactic(auto, using(crate::specs::DelayGroups::no_edge, crate::proofs::EdgeLemmas::none_sound))]
fn read_edge(
    alloc: Global,
    cell: &CellReading<'_>,
    delay: Option<GroupId>,
    slew: Option<GroupId>,
) -> Result<Option<EdgeTables>, CellFault>
    requires delay { IfSome delay (λ delay. IsGroup cell.now.tree delay.0) }
    requires slew { IfSome slew (λ slew. IsGroup cell.now.tree slew.0) }
    ensures ok { IfOk result (AreEdgeTables (library_of cell.now) (option_map (λ delay. group_at cell.now.tree delay.0) delay)
        (option_map (λ slew. group_at cell.now.tree slew.0) slew)) }
    ensures sound { OnOk result
        (All (IsSound (library_of cell.now))
        (edge_questions (option_map (λ delay. group_at cell.now.tree delay.0) delay)
        (option_map (λ slew. group_at cell.now.tree slew.0) slew))) }
    ensures refused { IfErr result
        (IsRefusal (library_of cell.now)
        (edge_questions (option_map (λ delay. group_at cell.now.tree delay.0) delay)
        (option_map (λ slew. group_at cell.now.tree slew.0) slew))) }
{
    match delay {
        None => Ok(None),
        Some(delay) => match read_tables(alloc, cell, delay, slew) {
            Ok(tables) => Ok(Some(tables)),
            Err(fault) => Err(fault),
        },
    }
}

/// The tables of the rise of a delay group.
fn read_rise(
    alloc: Global,
    cell: &CellReading<'_>,
    group: GroupId,
) -> Result<Option<EdgeTables>, CellFault>
    requires group { IsGroup cell.now.tree group.0 }
    ensures ok { IfOk result (IsRise (library_of cell.now) (group_at cell.now.tree group.0)) }
    ensures sound { OnOk result (All (IsSound (library_of cell.now)) (rise_questions (group_at cell.now.tree group.0))) }
    ensures refused { IfErr result (IsRefusal (library_of cell.now) (rise_questions (group_at cell.now.tree group.0))) }
{
    let delay = cell.first_group(group, b"cell_rise");
    let slew = cell.first_group(group, b"rise_transition");
    read_edge(alloc, cell, delay, slew)
}

/// The tables of its fall.
fn read_fall(
    alloc: Global,
    cell: &CellReading<'_>,
    group: GroupId,
) -> Result<Option<EdgeTables>, CellFault>
    requires group { IsGroup cell.now.tree group.0 }
    ensures ok { IfOk result (IsFall (library_of cell.now) (group_at cell.now.tree group.0)) }
    ensures sound { OnOk result (All (IsSound (library_of cell.now)) (fall_questions (group_at cell.now.tree group.0))) }
    ensures refused { IfErr result (IsRefusal (library_of cell.now) (fall_questions (group_at cell.now.tree group.0))) }
{
    let delay = cell.first_group(group, b"cell_fall");
    let slew = cell.first_group(group, b"fall_transition");
    read_edge(alloc, cell, delay, slew)
}

pub(crate) fn copied(tables: &Option<EdgeTables>) -> Result<Option<EdgeTables>, OutOfMemory>
    ensures { IfOk result (λ copy. copy ≡ tables.now) }
{
    match tables {
        None => Ok(None),
        Some(tables) => Ok(Some(tables.copied()?)),
    }
}

/// The kind and the tables of the arcs of a delay group.
#[derive(Drop)]
struct Timing {
    kind: ArcKind,
    rise: Option<EdgeTables>,
    fall: Option<EdgeTables>,
}

// What the arcs of a delay group have in common: the rise is read before the fall.
fn read_timing(alloc: Global, cell: &CellReading<'_>, group: GroupId) -> Result<Timing, CellFault>
    requires group { IsGroup cell.now.tree group.0 }
    ensures ok { IfOk result (λ timing. IsTiming (library_of cell.now) (group_at cell.now.tree group.0)
        timing.kind timing.rise timing.fall) }
    ensures sound { OnOk result
        (All (IsSound (library_of cell.now))
        (rise_questions (group_at cell.now.tree group.0) ++ fall_questions (group_at cell.now.tree group.0))) }
    ensures refused { IfErr result
        (IsRefusal (library_of cell.now)
        (rise_questions (group_at cell.now.tree group.0) ++ fall_questions (group_at cell.now.tree group.0))) }
{
    let rise = match read_rise(alloc, cell, group) {
        Ok(rise) => rise,
        Err(fault) => return Err(fault),
    };
    match read_fall(alloc, cell, group) {
        Ok(fall) => Ok(Timing {
            kind: kind_of(cell.tree(), group),
            rise,
            fall,
        }),
        Err(fault) => Err(fault),
    }
}

// An arc from one place to another.
fn arc_of(timing: &Timing, from: usize, to: usize) -> Result<Arc, OutOfMemory>
    ensures { IfOk result (λ arc. arc ≡ arc_from timing.now.kind timing.now.rise timing.now.fall to from) }
{
    let rise = copied(&timing.rise)?;
    let fall = copied(&timing.fall)?;
    Ok(Arc {
        from,
        to,
        kind: timing.kind,
        rise,
        fall,
    })
}

/// Puts an arc at the end.
pub(crate) fn put(arcs: &mut Vec<Arc>, arc: Arc) -> Result<(), OutOfMemory>
    ensures { OnOk result (arcs.new.items ≡ arcs.old.items ++ arc ∷ []) }
{
    match arcs.push(arc) {
        Ok(()) => Ok(()),
        Err(_) => Err(OutOfMemory),
    }
}

// An arc for each place, with the same tables.
fn push_arcs(
    timing: &Timing,
    places: &[usize],
    to: usize,
    arcs: &mut Vec<Arc>,
) -> Result<(), CellFault>
    ensures arcs { OnOk result (AddsArcs timing.now.kind timing.now.rise timing.now.fall places.now to arcs.old.items arcs.new.items) }
    ensures memory { IfErr result IsNoMemory }
{
    for from in places {
        let arc = arc_of(timing, *from, to)?;
        put(arcs, arc)?;
    }
    Ok(())
}

// The arcs of a delay group of the pin at a place.
fn add_arcs(
    alloc: Global,
    cell: &CellReading<'_>,
    to: usize,
    group: GroupId,
    arcs: &mut Vec<Arc>,
) -> Result<(), CellFault>
    requires group { IsGroup cell.now.tree group.0 }
    ensures ok { (name : List ℕ) → slice_get cell.now.names to ≡ Some name
        → OnOk result (AreAdded (library_of cell.now) cell.now.names
        (arcs_in (entries_of cell.now) (delay_at cell.now name group))
        (delay_questions (entries_of cell.now)
        (delay_at cell.now name group)) arcs.old.items arcs.new.items) }
    ensures refused { (name : List ℕ) → IfErr result
        (IsRefusal (library_of cell.now)
        (delay_questions (entries_of cell.now)
        (delay_at cell.now name group))) }
{
    let places = match related_places(alloc, cell, group) {
        Ok(places) => places,
        Err(fault) => return Err(fault),
    };
    let timing = match read_timing(alloc, cell, group) {
        Ok(timing) => timing,
        Err(fault) => return Err(fault),
    };
    push_arcs(&timing, places.as_slice(), to, arcs)
}

// The arcs of a group in the pin at a place, if it is a delay group.
fn add_group(
    alloc: Global,
    cell: &CellReading<'_>,
    to: usize,
    group: GroupId,
    arcs: &mut Vec<Arc>,
) -> Result<(), CellFault>
    requires group { IsGroup cell.now.tree group.0 }
    ensures ok { (name : List ℕ) → slice_get cell.now.names to ≡ Some name
        → OnOk result (AreAdded (library_of cell.now) cell.now.names
        (arcs_from (entries_of cell.now) name (group_at cell.now.tree group.0))
        (questions_from (entries_of cell.now) name (group_at cell.now.tree group.0))
        arcs.old.items arcs.new.items) }
    ensures refused { (name : List ℕ) → IfErr result
        (IsRefusal (library_of cell.now)
        (questions_from (entries_of cell.now) name (group_at cell.now.tree group.0))) }
{
    if is_delay_group(cell.tree(), group) {
        add_arcs(alloc, cell, to, group, arcs)
    } else {
        Ok(())
    }
}

// The arcs of the groups in the pin at a place.
fn add_groups(
    alloc: Global,
    cell: &CellReading<'_>,
    to: usize,
    arcs: &mut Vec<Arc>,
) -> Result<(), CellFault>
    requires to { to < length cell.now.pins }
    ensures ok { (entry : PinEntry) → slice_get (entries_of cell.now) to ≡ Some entry
        → OnOk result (AreAdded (library_of cell.now) cell.now.names
        (flat_map (arcs_from (entries_of cell.now) entry.name) (groups_of entry.group))
        (flat_map (questions_from (entries_of cell.now) entry.name) (groups_of entry.group))
        arcs.old.items arcs.new.items) }
    ensures refused { (entry : PinEntry) → slice_get (entries_of cell.now) to ≡ Some entry
        → IfErr result (IsRefusal (library_of cell.now)
        (flat_map (questions_from (entries_of cell.now) entry.name) (groups_of entry.group))) }
{
    let tree = cell.tree();
    let pin = cell.group(to);
    for place in 0..tree.child_count(pin) {
        let group = tree.child(pin, place);
        match add_group(alloc, cell, to, group, arcs) {
            Ok(_) => {}
            Err(fault) => return Err(fault),
        }
    }
    Ok(())
}

fn is_output(direction: Direction) -> bool
    ensures { result ≡ is_output (Some direction) }
{
    match direction {
        Direction::Output => true,
        _ => false,
    }
}

/// The arcs to the pin at a place: an output pin alone has some.
pub(crate) fn add_pin_arcs(
    alloc: Global,
    cell: &CellReading<'_>,
    to: usize,
    arcs: &mut Vec<Arc>,
) -> Result<(), CellFault>
    requires to { to < length cell.now.pins }
    ensures ok { (entry : PinEntry) → slice_get (entries_of cell.now) to ≡ Some entry
        → OnOk result (AreAdded (library_of cell.now) cell.now.names
        (flat_map (arcs_in (entries_of cell.now)) (delays_in entry))
        (flat_map (delay_questions (entries_of cell.now)) (delays_in entry))
        arcs.old.items arcs.new.items) }
    ensures refused { (entry : PinEntry) → slice_get (entries_of cell.now) to ≡ Some entry
        → IfErr result (IsRefusal (library_of cell.now)
        (flat_map (delay_questions (entries_of cell.now)) (delays_in entry))) }
{
    if is_output(cell.pin(to).direction) {
        add_groups(alloc, cell, to, arcs)
    } else {
        Ok(())
    }
}
