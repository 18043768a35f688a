//! A cycle among the nodes that an ordering leaves.
ghost use Rattle.std.specs.Prelude.{◌≡◌, ℕ, ◌++◌, ◌<◌, ◌≤◌, suc, length, slice_index, drop, take, All, IfOk, IfSome, IfNone};
ghost use Rattle.graph_order.specs.Progress.{wait_of, AreStuck};
ghost use Rattle.graph_order.specs.Orders.{IsCycle, IsCycleFromLeast};
ghost use Rattle.graph_order.specs.Trails.{IsBackCycle};

use edge_io::OutOfMemory;
use edge_io::lists::push;
use std::alloc::Global;

/// A link that some node waits for.
pub(crate) fn waiting_link(waits: &[Option<usize>]) -> Option<usize>
    ensures some { IfSome result (λ link. (node : ℕ) × (node < length waits.now) × (wait_of waits.now node ≡ suc link)) }
    ensures none { IfNone result ((node : ℕ) → node < length waits.now → wait_of waits.now node ≡ 0) }
{
    for node in 0..waits.len() {
        if let Some(link) = waits[node] {
            return Some(link);
        }
    }
    None
}

/// A cycle from its least node, found from a link whose source waits.
pub(crate) fn cycle_from(
    alloc: Global,
    start: usize,
    sources: &[usize],
    targets: &[usize],
    waits: &[Option<usize>],
) -> Result<Vec<usize>, OutOfMemory>
    requires same { length targets.now ≡ length sources.now }
    requires sources { All (λ node. node < length waits.now) sources.now }
    requires targets { All (λ node. node < length waits.now) targets.now }
    requires stuck { AreStuck (length waits.now) sources.now targets.now waits.now }
    requires start { start < length sources.now }
    requires waits { 0 < wait_of waits.now (slice_index sources.now start) }
    ensures { IfOk result (λ cycle. IsCycleFromLeast sources.now targets.now cycle.items) }
{
    let mut cycle = back_cycle(alloc, start, sources, targets, waits)?;
    cycle.reverse();
    let least = least_place(&cycle, sources);
    from_place(alloc, &cycle, least)
}

// Goes back from a link, from each source by the link that it waits for, until it comes to a node again. What it answers leads from
// that node back to it.
fn back_cycle(
    alloc: Global,
    start: usize,
    sources: &[usize],
    targets: &[usize],
    waits: &[Option<usize>],
) -> Result<Vec<usize>, OutOfMemory>
    requires same { length targets.now ≡ length sources.now }
    requires sources { All (λ node. node < length waits.now) sources.now }
    requires targets { All (λ node. node < length waits.now) targets.now }
    requires stuck { AreStuck (length waits.now) sources.now targets.now waits.now }
    requires start { start < length sources.now }
    requires waits { 0 < wait_of waits.now (slice_index sources.now start) }
    ensures { IfOk result (λ cycle. (node : ℕ) × IsBackCycle sources.now targets.now node cycle.items) }
{
    let mut places: Vec<Option<usize>> = vec![in alloc; None; waits.len()]?;
    let mut trail = Vec::new(alloc);
    let mut link = start;
    loop {
        let node = targets[link];
        if let Some(place) = places[node] {
            return links_from(alloc, &trail, place);
        }
        places[node] = Some(trail.len());
        push(&mut trail, link)?;
        let Some(next) = waits[sources[link]] else {
            unreachable!()
        };
        link = next;
    }
}

// The links from a place on.
fn links_from(alloc: Global, trail: &[usize], place: usize) -> Result<Vec<usize>, OutOfMemory>
    requires { place ≤ length trail.now }
    ensures { IfOk result (λ made. made.items ≡ drop place trail.now) }
{
    Ok(Vec::from_slice(alloc, &trail[place..])?)
}

// The place of the link that begins at the least node.
fn least_place(cycle: &[usize], sources: &[usize]) -> usize
    requires some { 0 < length cycle.now }
    requires links { All (λ link. link < length sources.now) cycle.now }
    ensures within { result < length cycle.now }
    ensures least { All (λ link. slice_index sources.now (slice_index cycle.now result) ≤ slice_index sources.now link) cycle.now }
{
    let mut least = 0;
    for place in 0..cycle.len() {
        if sources[cycle[place]] < sources[cycle[least]] {
            least = place;
        }
    }
    least
}

// The links from a place on, and then those before it.
fn from_place(alloc: Global, cycle: &[usize], place: usize) -> Result<Vec<usize>, OutOfMemory>
    requires { place ≤ length cycle.now }
    ensures { IfOk result (λ made. made.items ≡ drop place cycle.now ++ take place cycle.now) }
{
    let mut turned = Vec::with_capacity(alloc, cycle.len())?;
    turned.extend_from_slice(&cycle[place..])?;
    turned.extend_from_slice(&cycle[..place])?;
    Ok(turned)
}
