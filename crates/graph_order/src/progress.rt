//! An ordering on its way.
ghost use Rattle.std.specs.Prelude.{◌≡◌, ◌∷◌, [], ◌++◌, ◌+◌, ◌<◌, suc, length, slice_index, slice_index_or, All, OnOk, IfOk};
ghost use Rattle.graph_order.specs.Fans.{IsFan, ArePrevious, links_to};
ghost use Rattle.graph_order.specs.Progress.{wait_of, AreFree, IsWaiting, IsPassed, ArePassed, Goes, AreStuck};

use crate::fans::{Fan, fan_of};
use edge_io::OutOfMemory;
use edge_io::lists::push;
use std::alloc::Global;

/// An ordering on its way.
#[derive(Drop)]
pub(crate) struct Progress {
    /// The nodes that wait for no link, each behind the sources of the links into it.
    pub(crate) order: Vec<usize>,

    /// For each node the link that it waits for: one into it whose source waits too, or stands in the
    /// order and has its own links not passed yet.
    pub(crate) waits: Vec<Option<usize>>,
}

/// Orders all nodes that no cycle leads to.
pub(crate) fn run(
    alloc: Global,
    nodes: usize,
    sources: &[usize],
    targets: &[usize],
) -> Result<Progress, OutOfMemory>
    requires same { length targets.now ≡ length sources.now }
    requires sources { All (λ node. node < nodes) sources.now }
    requires targets { All (λ node. node < nodes) targets.now }
    ensures waiting { IfOk result (λ made. IsWaiting nodes sources.now targets.now made.order.items made.waits.items) }
    ensures stuck { IfOk result (λ made. AreStuck nodes sources.now targets.now made.waits.items) }
{
    let outgoing = fan_of(alloc, sources, nodes)?;
    let Fan { last, previous } = fan_of(alloc, targets, nodes)?;
    let order = free_nodes(alloc, &last)?;
    let mut progress = Progress { order, waits: last };
    pass_nodes(nodes, sources, targets, &outgoing, &previous, &mut progress)?;
    Ok(progress)
}

// The nodes that wait for no link.
fn free_nodes(alloc: Global, waits: &[Option<usize>]) -> Result<Vec<usize>, OutOfMemory>
    ensures { IfOk result (λ order. AreFree (length waits.now) order.items waits.now) }
{
    let mut order = Vec::with_capacity(alloc, waits.len())?;
    for node in 0..waits.len() {
        if waits[node].is_none() {
            push(&mut order, node)?;
        }
    }
    Ok(order)
}

// Passes all links from each node of the order, which grows on the way.
fn pass_nodes(
    nodes: usize,
    sources: &[usize],
    targets: &[usize],
    outgoing: &Fan,
    previous: &[Option<usize>],
    progress: &mut Progress,
) -> Result<(), OutOfMemory>
    requires same { length targets.now ≡ length sources.now }
    requires sources { All (λ node. node < nodes) sources.now }
    requires targets { All (λ node. node < nodes) targets.now }
    requires outgoing { IsFan sources.now nodes outgoing.now.last.items outgoing.now.previous.items }
    requires previous { ArePrevious targets.now previous.now }
    requires waiting { IsWaiting nodes sources.now targets.now progress.old.order.items progress.old.waits.items }
    ensures waiting { OnOk result (IsWaiting nodes sources.now targets.now progress.new.order.items progress.new.waits.items) }
    ensures stuck { OnOk result (AreStuck nodes sources.now targets.now progress.new.waits.items) }
{
    for head in 0..nodes {
        if head < progress.order.len() {
            pass_all(head, sources, targets, outgoing, previous, progress)?;
        }
    }
    Ok(())
}

// Passes all links from the node at a place of the order.
fn pass_all(
    head: usize,
    sources: &[usize],
    targets: &[usize],
    outgoing: &Fan,
    previous: &[Option<usize>],
    progress: &mut Progress,
) -> Result<(), OutOfMemory>
    requires same { length targets.now ≡ length sources.now }
    requires sources { All (λ node. node < length progress.old.waits.items) sources.now }
    requires targets { All (λ node. node < length progress.old.waits.items) targets.now }
    requires outgoing { IsFan sources.now (length progress.old.waits.items) outgoing.now.last.items outgoing.now.previous.items }
    requires previous { ArePrevious targets.now previous.now }
    requires waiting { IsWaiting (length progress.old.waits.items) sources.now targets.now
        progress.old.order.items progress.old.waits.items }
    requires passed { ArePassed sources.now targets.now progress.old.order.items progress.old.waits.items head }
    requires within { head < length progress.old.order.items }
    ensures waiting { OnOk result
        (IsWaiting (length progress.old.waits.items) sources.now targets.now progress.new.order.items progress.new.waits.items) }
    ensures goes { OnOk result
        (Goes sources.now targets.now progress.old.order.items progress.old.waits.items progress.new.order.items progress.new.waits.items) }
    ensures passed { OnOk result (ArePassed sources.now targets.now progress.new.order.items progress.new.waits.items (head + 1)) }
{
    let mut cursor = outgoing.last[progress.order[head]];
    while let Some(link) = cursor {
        pass(link, sources, targets, previous, progress)?;
        cursor = outgoing.previous[link];
    }
    Ok(())
}

// Passes a link: a node that waits for it then waits for the next one before it.
fn pass(
    link: usize,
    sources: &[usize],
    targets: &[usize],
    previous: &[Option<usize>],
    progress: &mut Progress,
) -> Result<(), OutOfMemory>
    requires same { length targets.now ≡ length sources.now }
    requires sources { All (λ node. node < length progress.old.waits.items) sources.now }
    requires targets { All (λ node. node < length progress.old.waits.items) targets.now }
    requires previous { ArePrevious targets.now previous.now }
    requires waiting { IsWaiting (length progress.old.waits.items) sources.now targets.now
        progress.old.order.items progress.old.waits.items }
    requires link { link < length sources.now }
    requires free { wait_of progress.old.waits.items (slice_index sources.now link) ≡ 0 }
    ensures waiting { OnOk result
        (IsWaiting (length progress.old.waits.items) sources.now targets.now progress.new.order.items progress.new.waits.items) }
    ensures goes { OnOk result
        (Goes sources.now targets.now progress.old.order.items progress.old.waits.items progress.new.order.items progress.new.waits.items) }
    ensures passed { OnOk result (IsPassed targets.now progress.new.waits.items link) }
{
    match progress.waits[targets[link]] {
        Some(waited) if waited == link => go_on(link, sources, targets, previous, progress),
        _ => Ok(()),
    }
}

// Lets the node that waits for a link wait for the next one before it of which the source waits. Where there is none the node
// comes into the order.
fn go_on(
    link: usize,
    sources: &[usize],
    targets: &[usize],
    previous: &[Option<usize>],
    progress: &mut Progress,
) -> Result<(), OutOfMemory>
    requires same { length targets.now ≡ length sources.now }
    requires sources { All (λ node. node < length progress.old.waits.items) sources.now }
    requires targets { All (λ node. node < length progress.old.waits.items) targets.now }
    requires previous { ArePrevious targets.now previous.now }
    requires waiting { IsWaiting (length progress.old.waits.items) sources.now targets.now
        progress.old.order.items progress.old.waits.items }
    requires link { link < length sources.now }
    requires free { wait_of progress.old.waits.items (slice_index sources.now link) ≡ 0 }
    requires waits { wait_of progress.old.waits.items (slice_index targets.now link) ≡ suc link }
    ensures waiting { OnOk result
        (IsWaiting (length progress.old.waits.items) sources.now targets.now progress.new.order.items progress.new.waits.items) }
    ensures goes { OnOk result
        (Goes sources.now targets.now progress.old.order.items progress.old.waits.items progress.new.order.items progress.new.waits.items) }
    ensures passed { OnOk result (IsPassed targets.now progress.new.waits.items link) }
{
    let node = targets[link];
    let mut next = previous[link];
    while let Some(found) = next {
        if progress.waits[sources[found]].is_some() {
            progress.waits[node] = Some(found);
            return Ok(());
        }
        next = previous[found];
    }
    progress.waits[node] = None;
    push(&mut progress.order, node)?;
    Ok(())
}
