//! Orders and cycles of small graphs, and the order of a long chain.
use edge_io::OutOfMemory;
use edge_io::lists::push;
use graph_order::{OrderEnd, fan_of, order_of};
use std::alloc::Global;
use std::test::Fail;

/// The order of a graph, or else a cycle. A link to a node out of range is taken for a want of memory.
fn answer_of(
    alloc: Global,
    nodes: usize,
    links: &[(usize, usize)],
) -> Result<Result<Vec<usize>, Vec<usize>>, OutOfMemory> {
    let mut sources = Vec::new(alloc);
    let mut targets = Vec::new(alloc);
    for link in links {
        if link.0 >= nodes || link.1 >= nodes {
            return Err(OutOfMemory);
        }
        push(&mut sources, link.0)?;
        push(&mut targets, link.1)?;
    }
    match order_of(alloc, nodes, &sources, &targets) {
        Ok(order) => Ok(Ok(order)),
        Err(OrderEnd::Cycle(cycle)) => Ok(Err(cycle)),
        Err(OrderEnd::OutOfMemory) => Err(OutOfMemory),
    }
}

/// Each source stands before its target, and each node once.
fn is_order(
    alloc: Global,
    nodes: usize,
    links: &[(usize, usize)],
    order: &[usize],
) -> Result<bool, OutOfMemory> {
    let mut places: Vec<usize> = vec![in alloc; nodes; nodes]?;
    for place in 0..order.len() {
        let node = order[place];
        if node >= nodes || places[node] < nodes {
            return Ok(false);
        }
        places[node] = place;
    }
    for link in links {
        if link.0 >= nodes || link.1 >= nodes || places[link.0] >= places[link.1] {
            return Ok(false);
        }
    }
    Ok(order.len() == nodes)
}

#[test]
fn small_graphs_have_orders(rt: HostRuntime) -> Result<(), Fail> {
    let alloc = rt.alloc();
    let empty: &[(usize, usize)] = &[];
    let diamond = [(3, 1), (3, 2), (1, 0), (2, 0), (2, 0)];
    let chain = [(2, 1), (1, 0), (0, 3)];
    for (nodes, links) in [
        (0, empty),
        (3, empty),
        (4, diamond.as_slice()),
        (5, chain.as_slice()),
    ] {
        let order = answer_of(alloc, nodes, links)?.ok().ok_or("an order")?;
        assert!(rt; is_order(alloc, nodes, links, &order)?, "{nodes} nodes");
    }
    Ok(())
}

#[test]
fn cycles_begin_at_their_least_node(rt: HostRuntime) -> Result<(), Fail> {
    let alloc = rt.alloc();
    let loop_of_one = [(0, 1), (1, 1), (1, 2)];
    // A triangle with a way in and a way out.
    let triangle = [(0, 3), (3, 2), (2, 1), (1, 3), (1, 4)];
    let eight = [(2, 0), (0, 2), (1, 0)];
    let twice = [(0, 1), (0, 1), (1, 0)];
    for (links, want) in [
        (loop_of_one.as_slice(), [1].as_slice()),
        (triangle.as_slice(), [3, 1, 2].as_slice()),
        (eight.as_slice(), [1, 0].as_slice()),
        (twice.as_slice(), [1, 2].as_slice()),
    ] {
        let cycle = answer_of(alloc, 5, links)?.err().ok_or("a cycle")?;
        assert!(rt; cycle.as_slice() == want);
    }
    Ok(())
}

#[test]
fn a_chain_of_many_nodes_is_ordered(rt: HostRuntime) -> Result<(), Fail> {
    let alloc = rt.alloc();
    let mut links = Vec::with_capacity(alloc, 499_999)?;
    for node in 1..500_000 {
        links.push((500_000 - node, 499_999 - node))?;
    }
    let order = answer_of(alloc, 500_000, &links)?.ok().ok_or("an order")?;
    assert!(rt; is_order(alloc, 500_000, &links, &order)?);
    Ok(())
}

#[test]
fn chains_go_back_from_the_last_link(rt: HostRuntime) -> Result<(), Fail> {
    let fan = fan_of(rt.alloc(), &[1, 0, 1], 3)?;
    assert!(rt; fan.last.as_slice() == [Some(1), Some(2), None].as_slice());
    assert!(rt; fan.previous.as_slice() == [None, None, Some(0)].as_slice());
    Ok(())
}
