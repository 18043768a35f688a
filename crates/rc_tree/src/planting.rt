//! The tree of a net, once it is known where everything stands in it.
ghost use Rattle.std.specs.Prelude.{◌≡◌, ℕ, ◌+◌, ◌*◌, ◌<◌, ◌≤◌, [], length, replicate, OnOk, OnErr};
ghost use Rattle.rc_tree.specs.Arenas.{IsArena, node_count};
ghost use Rattle.rc_tree.specs.Values.{farads_at, ohms_at};
ghost use Rattle.rc_tree.specs.Filling.{Layout, IsLayout, IsFilled, KeepsOhms, KeepsFarads};
ghost use Rattle.rc_tree.specs.Layouts.{layout_of};

use crate::filling::{fill_farads, fill_loads, fill_ohms};
use crate::layout::NodeLayout;
use crate::node_ids::NodeId;
use crate::pin_source::PinSource;
use crate::tree::RcTree;
use corner_set::{CornerSet, Grid, corner_at};
use delay_units::{Farads, Ohms};
use edge_io::{OutOfMemory, Steps};
use spef_nets::Net;
use std::alloc::Global;
use std::sync::ledger::Ledger;

/// Makes a tree that of a layout, with the values of the section and the pins, in the memory that it has where that suffices: at each
/// corner one step for each link and each capacitance of the section. Where memory is short the tree has no node.
pub fn plant<C: CornerSet, P: PinSource<C>, L: Ledger>(
    alloc: Global,
    section: &Net<C>,
    pins: &P,
    layout: &NodeLayout,
    tree: &mut RcTree<C>,
    steps: &mut Steps<L>,
) -> Result<(), OutOfMemory>
    requires { IsLayout section.now (P.pins pins.now section.now) (layout_of layout.now) }
    ensures parents { OnOk result (tree.new.parents ≡ layout.now.parents.now) }
    ensures sinks { OnOk result (tree.new.sinks ≡ layout.now.sinks.now) }
    ensures whole { IsArena C.COUNT tree.new }
    ensures filled { OnOk result ((number : ℕ) → number < C.COUNT
        → IsFilled C.COUNT section.now (P.pins pins.now section.now) (layout_of layout.now) tree.new.ohms tree.new.farads number) }
    ensures none { OnErr result (node_count tree.new ≡ 0) }
    ensures steps { steps.new + C.COUNT ≤ steps.old + C.COUNT * (length layout.now.parents.now + length section.now.caps) }
{
    let Ok(()) = put_lists(
        alloc,
        layout,
        &mut tree.parents,
        &mut tree.ohms,
        &mut tree.farads,
        &mut tree.sinks,
    ) else {
        empty_lists(
            &mut tree.parents,
            &mut tree.ohms,
            &mut tree.farads,
            &mut tree.sinks,
        );
        return Err(OutOfMemory);
    };
    fill_all(
        section,
        pins,
        layout,
        &mut tree.ohms,
        &mut tree.farads,
        steps,
    );
    Ok(())
}

// Makes the lists of a tree those of a layout, with 0 for each value.
fn put_lists<C: CornerSet>(
    alloc: Global,
    layout: &NodeLayout,
    parents: &mut Vec<u32>,
    ohms: &mut Grid<C, Ohms>,
    farads: &mut Grid<C, Farads>,
    sinks: &mut Vec<NodeId>,
) -> Result<(), OutOfMemory>
    ensures parents { OnOk result (parents.new.items ≡ layout.now.parents.now) }
    ensures ohms { OnOk result (ohms.new.values ≡ replicate (length layout.now.parents.now * C.COUNT) (record { 0 = 0 })) }
    ensures farads { OnOk result (farads.new.values ≡ replicate (length layout.now.parents.now * C.COUNT) (record { 0 = 0 })) }
    ensures sinks { OnOk result (sinks.new.items ≡ layout.now.sinks.now) }
{
    refit(alloc, layout.parents.len(), Ohms(0), ohms)?;
    refit(alloc, layout.parents.len(), Farads(0), farads)?;
    replace_items(layout.parents, parents)?;
    replace_items(layout.sinks, sinks)?;
    Ok(())
}

// Makes a grid one of so many rows, with one value in each place, in the memory that it has where that suffices.
fn refit<C: CornerSet, T: Copy>(
    alloc: Global,
    rows: usize,
    fill: T,
    grid: &mut Grid<C, T>,
) -> Result<(), OutOfMemory>
    ensures { OnOk result (grid.new.values ≡ replicate (rows * C.COUNT) fill) }
{
    if rows <= grid.room() {
        grid.reuse(rows, fill);
        return Ok(());
    }
    *grid = Grid::with_rows(alloc, rows, fill)?;
    Ok(())
}

// Makes a list these items.
#[inline(always)]
fn replace_items<T: Copy>(items: &[T], list: &mut Vec<T>) -> Result<(), OutOfMemory>
    ensures { OnOk result (list.new.items ≡ items.now) }
{
    list.clear();
    list.extend_from_slice(items)?;
    Ok(())
}

/// Empties the lists of a tree, which keep their memory.
pub fn empty_lists<C: CornerSet>(
    parents: &mut Vec<u32>,
    ohms: &mut Grid<C, Ohms>,
    farads: &mut Grid<C, Farads>,
    sinks: &mut Vec<NodeId>,
)
    ensures parents { parents.new.items ≡ [] }
    ensures ohms { ohms.new.values ≡ [] }
    ensures farads { farads.new.values ≡ [] }
    ensures sinks { sinks.new.items ≡ [] }
{
    parents.clear();
    ohms.reuse(0, Ohms(0));
    farads.reuse(0, Farads(0));
    sinks.clear();
}

// Fills all corners.
fn fill_all<C: CornerSet, P: PinSource<C>, L: Ledger>(
    section: &Net<C>,
    pins: &P,
    layout: &NodeLayout,
    ohms: &mut Grid<C, Ohms>,
    farads: &mut Grid<C, Farads>,
    steps: &mut Steps<L>,
)
    requires layout { IsLayout section.now (P.pins pins.now section.now) (layout_of layout.now) }
    requires ohms_rows { length ohms.old.values ≡ length layout.now.parents.now * C.COUNT }
    requires farads_rows { length farads.old.values ≡ length layout.now.parents.now * C.COUNT }
    requires no_ohms { (row number : ℕ) → ohms_at C.COUNT ohms.old.values row number ≡ 0 }
    requires no_farads { (row number : ℕ) → farads_at C.COUNT farads.old.values row number ≡ 0 }
    ensures filled { (number : ℕ) → number < C.COUNT
        → IsFilled C.COUNT section.now (P.pins pins.now section.now) (layout_of layout.now) ohms.new.values farads.new.values number }
    ensures ohms_size { length ohms.new.values ≡ length ohms.old.values }
    ensures farads_size { length farads.new.values ≡ length farads.old.values }
    ensures steps { steps.new + C.COUNT ≤ steps.old + C.COUNT * (length layout.now.parents.now + length section.now.caps) }
{
    for number in 0..C::COUNT {
        let corner = corner_at::<C>(number);
        fill_corner(section, pins, layout, corner, ohms, farads, steps);
    }
}

// Fills one corner.
fn fill_corner<C: CornerSet, P: PinSource<C>, L: Ledger>(
    section: &Net<C>,
    pins: &P,
    layout: &NodeLayout,
    corner: C::Index,
    ohms: &mut Grid<C, Ohms>,
    farads: &mut Grid<C, Farads>,
    steps: &mut Steps<L>,
)
    requires layout { IsLayout section.now (P.pins pins.now section.now) (layout_of layout.now) }
    requires ohms_rows { length ohms.old.values ≡ length layout.now.parents.now * C.COUNT }
    requires farads_rows { length farads.old.values ≡ length layout.now.parents.now * C.COUNT }
    requires no_ohms { (row : ℕ) → ohms_at C.COUNT ohms.old.values row (C.number_of corner) ≡ 0 }
    requires no_farads { (row : ℕ) → farads_at C.COUNT farads.old.values row (C.number_of corner) ≡ 0 }
    ensures filled { IsFilled C.COUNT section.now (P.pins pins.now section.now) (layout_of layout.now) ohms.new.values farads.new.values
        (C.number_of corner) }
    ensures ohms { KeepsOhms C.COUNT ohms.old.values ohms.new.values (C.number_of corner) }
    ensures farads { KeepsFarads C.COUNT farads.old.values farads.new.values (C.number_of corner) }
    ensures steps { steps.new + 1 ≤ steps.old + (length layout.now.parents.now + length section.now.caps) }
{
    fill_ohms(section, layout.vias, corner, ohms, steps);
    fill_farads(section, layout.spots, corner, farads, steps);
    fill_loads(section, pins, layout.sinks, corner, farads);
}
