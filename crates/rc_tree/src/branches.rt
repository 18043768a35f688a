//! The tree of a net with resistors.
ghost use Rattle.std.specs.Prelude.{◌≡◌, ℕ, ◌+◌, ◌-◌, ◌*◌, ◌<◌, ◌≤◌, length, slice_index, IfErr, OnOk, OnErr};
ghost use Rattle.rc_tree.specs.Arenas.{node_count};
ghost use Rattle.rc_tree.specs.Builds.{IsFit, IsTreeEnd, IsTreeOf};
ghost use Rattle.rc_tree.specs.FoundSearch.{search_of};
ghost use Rattle.rc_tree.specs.Layouts.{layout_of};
ghost use Rattle.rc_tree.specs.Laying.{IsLaid};
ghost use Rattle.rc_tree.specs.Searched.{IsNumbered, IsExplored, IsComplete, AreSinks};

use crate::ends::TreeEnd;
use crate::found::Found;
use crate::laying::{first_zero, put_places, put_sinks};
use crate::layout::{NodeLayout, TreePlaces};
use crate::numbered::Numbered;
use crate::numbering::copy_ends;
use crate::pin_source::PinSource;
use crate::planting::plant;
use crate::searching::search;
use crate::tree::RcTree;
use crate::workspace::SearchLists;
use corner_set::{CornerSet, first_corner};
use edge_io::{OutOfMemory, Steps};
use spef_nets::Net;
use std::alloc::Global;
use std::sync::ledger::Ledger;

/// Makes a tree with no node that of a net with resistors, whose nodes are numbered.
pub fn branched<C: CornerSet, P: PinSource<C>, L: Ledger>(
    alloc: Global,
    section: &Net<C>,
    pins: &P,
    numbered: &Numbered,
    lists: &mut SearchLists,
    tree: &mut RcTree<C>,
    steps: &mut Steps<L>,
) -> Result<(), TreeEnd>
    requires fit { IsFit section.now (P.pins pins.now section.now) }
    requires some { 0 < length section.now.joints }
    requires numbered { IsNumbered section.now (P.pins pins.now section.now) numbered.now.spots.items numbered.now.count }
    requires bare { node_count tree.old ≡ 0 }
    ensures tree { OnOk result (IsTreeOf C.COUNT section.now (P.pins pins.now section.now) tree.new) }
    ensures nodes { OnOk result (node_count tree.new ≤ length section.now.joints + 1) }
    ensures refused { IfErr result (λ end. IsTreeEnd C.COUNT section.now (P.pins pins.now section.now) end) }
    ensures none { OnErr result (node_count tree.new ≡ 0) }
    ensures steps { steps.new ≤ steps.old + length section.now.joints + C.COUNT * (length section.now.joints + length section.now.caps) }
{
    explore(section, numbered, lists, steps)?;
    judge(alloc, section, pins, numbered, &lists.found)?;
    let found = &lists.found;
    grow(
        alloc,
        section,
        pins,
        numbered,
        found,
        &mut lists.places,
        tree,
        steps,
    )?;
    Ok(())
}

// Searches the nodes: one step a resistor.
fn explore<C: CornerSet, L: Ledger>(
    section: &Net<C>,
    numbered: &Numbered,
    lists: &mut SearchLists,
    steps: &mut Steps<L>,
) -> Result<(), OutOfMemory>
    requires some { 0 < numbered.now.count }
    requires size { length numbered.now.spots.items ≡ length section.now.nodes }
    requires spots { (node : ℕ) → node < length numbered.now.spots.items → slice_index numbered.now.spots.items node < numbered.now.count }
    ensures explored { OnOk result (IsExplored section.now numbered.now.spots.items numbered.now.count (search_of lists.new.found)) }
    ensures steps { steps.new ≤ steps.old + length section.now.joints }
{
    let corner = first_corner::<C>();
    copy_ends(section, &numbered.spots, corner, &mut lists.ends, steps)?;
    search(
        &lists.ends.froms,
        &lists.ends.tos,
        numbered.count,
        &mut lists.at_froms,
        &mut lists.at_tos,
        &mut lists.found,
    )?;
    Ok(())
}

// Whether the net is a tree: every node is found, and each resistor is the link of one.
fn judge<C: CornerSet, P: PinSource<C>>(
    alloc: Global,
    section: &Net<C>,
    pins: &P,
    numbered: &Numbered,
    found: &Found,
) -> Result<(), TreeEnd>
    requires fit { IsFit section.now (P.pins pins.now section.now) }
    requires some { 0 < length section.now.joints }
    requires numbered { IsNumbered section.now (P.pins pins.now section.now) numbered.now.spots.items numbered.now.count }
    requires explored { IsExplored section.now numbered.now.spots.items numbered.now.count (search_of found.now) }
    ensures complete { OnOk result (IsComplete (search_of found.now)) }
    ensures refused { IfErr result (λ end. IsTreeEnd C.COUNT section.now (P.pins pins.now section.now) end) }
{
    if let Some(node) = first_zero(&found.numbers) {
        let name = pins.name_at(alloc, section, numbered, node)?;
        return Err(TreeEnd::Unreached(name));
    }
    if let Some(place) = first_zero(&found.links) {
        return Err(TreeEnd::Mesh(place));
    }
    Ok(())
}

// Makes a tree with no node that of a net that is one.
fn grow<C: CornerSet, P: PinSource<C>, L: Ledger>(
    alloc: Global,
    section: &Net<C>,
    pins: &P,
    numbered: &Numbered,
    found: &Found,
    places: &mut TreePlaces,
    tree: &mut RcTree<C>,
    steps: &mut Steps<L>,
) -> Result<(), OutOfMemory>
    requires fit { IsFit section.now (P.pins pins.now section.now) }
    requires some { 0 < length section.now.joints }
    requires numbered { IsNumbered section.now (P.pins pins.now section.now) numbered.now.spots.items numbered.now.count }
    requires explored { IsExplored section.now numbered.now.spots.items numbered.now.count (search_of found.now) }
    requires complete { IsComplete (search_of found.now) }
    requires bare { node_count tree.old ≡ 0 }
    ensures tree { OnOk result (IsTreeOf C.COUNT section.now (P.pins pins.now section.now) tree.new) }
    ensures nodes { OnOk result (node_count tree.new ≤ length section.now.joints + 1) }
    ensures none { OnErr result (node_count tree.new ≡ 0) }
    ensures steps { steps.new ≤ steps.old + C.COUNT * (length section.now.joints + length section.now.caps) }
{
    put_places(&numbered.spots, &found.numbers, &mut places.nodes)?;
    put_sinks(section, pins, numbered, found, &mut places.sinks)?;
    let layout = lay(found, places);
    // at most two for each that is written
    section.cap_count();
    plant(alloc, section, pins, &layout, tree, steps)?;
    Ok(())
}

// The layout of what a search has found, with the places of the section's nodes and of the sinks.
fn lay<'a>(found: &'a Found, places: &'a TreePlaces) -> NodeLayout<'a>
    ensures { layout_of result ≡ record {
      parents = found.now.parents.items;
      vias = found.now.vias.items;
      spots = places.now.nodes.items;
      sinks = places.now.sinks.items;
    } }
{
    NodeLayout {
        parents: &found.parents,
        vias: &found.vias,
        spots: &places.nodes,
        sinks: &places.sinks,
    }
}
