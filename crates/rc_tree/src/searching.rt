//! The search from the driver's node.
ghost use Rattle.std.specs.Prelude.{◌≡◌, ◌<◌, ◌≤◌, [], ◌∷◌, length, slice_index, slice_set, replicate, true, All, IfOk, OnOk};
ghost use Rattle.rc_tree.specs.Threads.{IsThreaded};
ghost use Rattle.rc_tree.specs.Searches.{Search, IsSearch, IsClosed, Grown, IsVisited, reached};
ghost use Rattle.rc_tree.specs.FoundSearch.{search_of};

use crate::found::Found;
use crate::threads::{Threads, thread};
use edge_io::OutOfMemory;
use edge_io::lists::{empty, push, refill, to_u32};

/// Finds all nodes that walks over the resistors reach from node 0, a parent before its children. The resistor at a place has
/// its ends at the nodes of that place in both lists.
pub fn search(
    froms: &[u32],
    tos: &[u32],
    nodes: usize,
    at_froms: &mut Threads,
    at_tos: &mut Threads,
    found: &mut Found,
) -> Result<(), OutOfMemory>
    requires some { 0 < nodes }
    requires same { length tos.now ≡ length froms.now }
    requires froms { All (λ node. node < nodes) froms.now }
    requires tos { All (λ node. node < nodes) tos.now }
    ensures search { OnOk result (IsSearch nodes froms.now tos.now (search_of found.new)) }
    ensures closed { OnOk result (IsClosed froms.now tos.now (search_of found.new)) }
{
    start(froms.len(), nodes, found)?;
    if sweep_all(froms, tos, nodes, found)? {
        return Ok(());
    }
    spread(froms, tos, nodes, at_froms, at_tos, found)?;
    Ok(())
}

// Goes through the resistors, where they are as many as a tree has, and tells whether all nodes are found then: so none of the resistors
// is left over. A mesh is not swept, since it depends on the order of a search which of its resistors is told.
fn sweep_all(
    froms: &[u32],
    tos: &[u32],
    nodes: usize,
    found: &mut Found,
) -> Result<bool, OutOfMemory>
    requires search { IsSearch nodes froms.now tos.now (search_of found.old) }
    requires same { length tos.now ≡ length froms.now }
    requires froms { All (λ node. node < nodes) froms.now }
    requires tos { All (λ node. node < nodes) tos.now }
    ensures search { OnOk result (IsSearch nodes froms.now tos.now (search_of found.new)) }
    ensures closed { IfOk result (λ all. all ≡ true → IsClosed froms.now tos.now (search_of found.new)) }
{
    if froms.len() + 1 != nodes {
        return Ok(false);
    }
    sweep(froms, tos, found)?;
    if found.order.len() < nodes {
        return Ok(false);
    }
    Ok(true)
}

// Goes through the resistors once, in order. Where each has an end that is found before it, which is the rule, that finds all nodes.
fn sweep(froms: &[u32], tos: &[u32], found: &mut Found) -> Result<(), OutOfMemory>
    requires search { IsSearch (length found.old.numbers.items) froms.now tos.now (search_of found.old) }
    requires same { length tos.now ≡ length froms.now }
    requires froms { All (λ node. node < length found.old.numbers.items) froms.now }
    requires tos { All (λ node. node < length found.old.numbers.items) tos.now }
    ensures { OnOk result (IsSearch (length found.old.numbers.items) froms.now tos.now (search_of found.new)) }
{
    for resistor in 0..froms.len() {
        cross(froms, tos, resistor, found)?;
    }
    Ok(())
}

// Finds an end of a resistor from the other one, where that is found.
fn cross(froms: &[u32], tos: &[u32], resistor: usize, found: &mut Found) -> Result<(), OutOfMemory>
    requires search { IsSearch (length found.old.numbers.items) froms.now tos.now (search_of found.old) }
    requires within { resistor < length froms.now }
    requires same { length tos.now ≡ length froms.now }
    requires froms { All (λ node. node < length found.old.numbers.items) froms.now }
    requires tos { All (λ node. node < length found.old.numbers.items) tos.now }
    ensures { OnOk result (IsSearch (length found.old.numbers.items) froms.now tos.now (search_of found.new)) }
{
    let from = froms[resistor];
    let to = tos[resistor];
    let number = found.numbers[from as usize];
    if number != 0 {
        reach(resistor, to, number as usize - 1, found)?;
        return Ok(());
    }
    let number = found.numbers[to as usize];
    if number != 0 {
        reach(resistor, from, number as usize - 1, found)?;
        return Ok(());
    }
    Ok(())
}

// Finds what walks lead to from the nodes that are found.
fn spread(
    froms: &[u32],
    tos: &[u32],
    nodes: usize,
    at_froms: &mut Threads,
    at_tos: &mut Threads,
    found: &mut Found,
) -> Result<(), OutOfMemory>
    requires search { IsSearch nodes froms.now tos.now (search_of found.old) }
    requires same { length tos.now ≡ length froms.now }
    requires froms { All (λ node. node < nodes) froms.now }
    requires tos { All (λ node. node < nodes) tos.now }
    ensures search { OnOk result (IsSearch nodes froms.now tos.now (search_of found.new)) }
    ensures closed { OnOk result (IsClosed froms.now tos.now (search_of found.new)) }
{
    thread(froms, nodes, at_froms)?;
    thread(tos, nodes, at_tos)?;
    for place in 0..nodes {
        visit_both(at_froms, at_tos, froms, tos, place, found)?;
    }
    Ok(())
}

// Finds what is joined to the node at a place of the order, if there is one.
fn visit_both(
    at_froms: &Threads,
    at_tos: &Threads,
    froms: &[u32],
    tos: &[u32],
    place: usize,
    found: &mut Found,
) -> Result<(), OutOfMemory>
    requires search { IsSearch (length found.old.numbers.items) froms.now tos.now (search_of found.old) }
    requires at_froms { IsThreaded froms.now (length found.old.numbers.items) at_froms.now.heads.items at_froms.now.nexts.items }
    requires at_tos { IsThreaded tos.now (length found.old.numbers.items) at_tos.now.heads.items at_tos.now.nexts.items }
    requires same { length tos.now ≡ length froms.now }
    requires froms { All (λ node. node < length found.old.numbers.items) froms.now }
    requires tos { All (λ node. node < length found.old.numbers.items) tos.now }
    ensures search { OnOk result (IsSearch (length found.old.numbers.items) froms.now tos.now (search_of found.new)) }
    ensures grown { OnOk result (Grown (search_of found.old) (search_of found.new)) }
    ensures at_froms { OnOk result (place < length found.old.order.items
        → IsVisited froms.now tos.now (search_of found.new) (slice_index found.old.order.items place)) }
    ensures past { OnOk result (length found.old.order.items ≤ place → length found.new.order.items ≡ length found.old.order.items) }
    ensures at_tos { OnOk result (place < length found.old.order.items
        → IsVisited tos.now froms.now (search_of found.new) (slice_index found.old.order.items place)) }
{
    if found.order.len() <= place {
        return Ok(());
    }
    visit(at_froms, froms, tos, place, found)?;
    visit(at_tos, tos, froms, place, found)?;
    Ok(())
}

// The first node alone is found.
fn start(resistors: usize, nodes: usize, found: &mut Found) -> Result<(), OutOfMemory>
    requires { 0 < nodes }
    ensures order { OnOk result (found.new.order.items ≡ 0 ∷ []) }
    ensures parents { OnOk result (found.new.parents.items ≡ 0 ∷ []) }
    ensures vias { OnOk result (found.new.vias.items ≡ 0 ∷ []) }
    ensures numbers { OnOk result (found.new.numbers.items ≡ slice_set (replicate nodes 0) 0 1) }
    ensures links { OnOk result (found.new.links.items ≡ replicate resistors 0) }
{
    empty(&mut found.order, nodes)?;
    empty(&mut found.parents, nodes)?;
    empty(&mut found.vias, nodes)?;
    push(&mut found.order, 0)?;
    push(&mut found.parents, 0)?;
    push(&mut found.vias, 0)?;
    refill(&mut found.numbers, nodes, 0)?;
    refill(&mut found.links, resistors, 0)?;
    found.numbers[0] = 1;
    Ok(())
}

// Finds what is joined to the node at a place of the order by the resistors of one threading.
fn visit(
    threads: &Threads,
    near: &[u32],
    far: &[u32],
    place: usize,
    found: &mut Found,
) -> Result<(), OutOfMemory>
    requires search { IsSearch (length found.old.numbers.items) near.now far.now (search_of found.old) }
    requires threads { IsThreaded near.now (length found.old.numbers.items) threads.now.heads.items threads.now.nexts.items }
    requires same { length far.now ≡ length near.now }
    requires fars { All (λ node. node < length found.old.numbers.items) far.now }
    requires within { place < length found.old.order.items }
    ensures search { OnOk result (IsSearch (length found.old.numbers.items) near.now far.now (search_of found.new)) }
    ensures grown { OnOk result (Grown (search_of found.old) (search_of found.new)) }
    ensures visited { OnOk result (IsVisited near.now far.now (search_of found.new) (slice_index found.old.order.items place)) }
{
    let mut left = threads.heads[found.order[place] as usize];
    while left != 0 {
        let resistor = left as usize - 1;
        reach(resistor, far[resistor], place, found)?;
        left = threads.nexts[resistor];
    }
    Ok(())
}

// Finds a node over a resistor from the node at a place of the order, where it is not found yet.
fn reach(resistor: usize, node: u32, place: usize, found: &mut Found) -> Result<(), OutOfMemory>
    requires node { node < length found.old.numbers.items }
    requires resistor { resistor < length found.old.links.items }
    ensures { OnOk result (search_of found.new ≡ reached (search_of found.old) resistor node place) }
{
    if found.numbers[node as usize] != 0 {
        return Ok(());
    }
    let next = to_u32(found.order.len())?;
    let Some(number) = next.checked_add(1) else {
        return Err(OutOfMemory);
    };
    push(&mut found.order, node)?;
    push(&mut found.parents, to_u32(place)?)?;
    push(&mut found.vias, to_u32(resistor)?)?;
    found.numbers[node as usize] = number;
    found.links[resistor] = next;
    Ok(())
}
