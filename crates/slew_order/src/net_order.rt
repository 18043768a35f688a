//! The order of the nets of a design, or a cycle of its arcs.
ghost use Rattle.std.specs.Prelude.{◌≡◌, ◌<◌, ◌^◌, length, map, All, IfOk, IfErr, OnOk, slice_index_or};
ghost use Rattle.slew_states.specs.Ends.{CarriesLoop};
ghost use Rattle.slew_states.specs.Loops.{IsNetOrder};
ghost use Rattle.slew_order.specs.Cycles.{HasNoCycle};
ghost use Rattle.slew_order.specs.SlewEnds.{IsSlewEnd};
ghost use Rattle.slew_order.specs.Timings.{flat_in, no_arc_at};

use crate::arcs::ArcAt;
use crate::design::Design;
use crate::ends::{ArcList, SlewEnd};
use corner_set::CornerSet;
use edge_io::OutOfMemory;
use edge_io::lists::push;
use graph_order::OrderEnd;
use slew_states::order_nets;
use std::alloc::Global;

/// An order of the nets in which each arc leads from a net to a later one, or a cycle of arcs.
pub(crate) fn net_order<C: CornerSet>(
    alloc: Global,
    design: &Design<'_, C>,
) -> Result<Vec<usize>, SlewEnd>
    ensures order { IfOk result (λ order. IsNetOrder (length design.now.netlist.nets) (flat_in design.now) order.items) }
    ensures few { length design.now.netlist.nets < 2 ^ 63 }
    ensures none { OnOk result (HasNoCycle design.now.netlist design.now.cells) }
    ensures end { IfErr result (IsSlewEnd design.now) }
{
    match order_nets(alloc, design.netlist().net_count(), design.flat()) {
        Ok(order) => Ok(order),
        Err(end) => Err(cycle_end(alloc, design, end)),
    }
}

// The end of a cycle that is given by the numbers of its arcs.
fn cycle_end<C: CornerSet>(alloc: Global, design: &Design<'_, C>, end: OrderEnd) -> SlewEnd
    requires { CarriesLoop (flat_in design.now) end }
    ensures { IsSlewEnd design.now result }
{
    match end {
        OrderEnd::Cycle(cycle) => match arcs_of(alloc, design.arcs(), &cycle) {
            Ok(arcs) => SlewEnd::Loop(arcs),
            Err(_) => SlewEnd::OutOfMemory,
        },
        OrderEnd::OutOfMemory => SlewEnd::OutOfMemory,
    }
}

// The arcs of some numbers.
fn arcs_of(alloc: Global, arcs: &[ArcAt], numbers: &[usize]) -> Result<ArcList, OutOfMemory>
    requires { All (λ arc. arc < length arcs.now) numbers.now }
    ensures { IfOk result (λ list. list ≡ map (λ arc. slice_index_or arcs.now arc no_arc_at) numbers.now) }
{
    let mut list = Vec::with_capacity(alloc, numbers.len())?;
    for place in 0..numbers.len() {
        push(&mut list, arcs[numbers[place]])?;
    }
    Ok(ArcList { arcs: list })
}
