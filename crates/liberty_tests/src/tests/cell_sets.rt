//! Cells by their names.
use super::libraries::SHAPES;
use super::models::built;
use corner_set::Single;
use edge_io::Text;
use std::alloc::Global;
use timing_arcs::{CellList, CellSet, CellSets, join_corners};

/// A cell at one corner.
fn single(alloc: Global, cell: &[u8]) -> Option<CellSet<Single>> {
    let mut cells = CellList::new(alloc);
    cells.push(built(alloc, SHAPES, cell).ok()?).ok()?;
    join_corners(alloc, cells).ok()
}

/// Adds a cell by a name. It answers whether it did, which it does where the name is new.
fn add_new(alloc: Global, sets: &mut CellSets<Single>, name: &Text, cell: &[u8]) -> bool {
    if sets.find(name).is_some() {
        return false;
    }
    match single(alloc, cell) {
        Some(set) => sets.add(name, set).is_ok(),
        None => false,
    }
}

/// The same, of a name in bytes.
fn is_added(alloc: Global, sets: &mut CellSets<Single>, name: &[u8], cell: &[u8]) -> bool {
    match Text::from_bytes(alloc, name) {
        Ok(name) => add_new(alloc, sets, &name, cell),
        Err(_) => false,
    }
}

#[test]
fn cells_have_names(rt: HostRuntime) {
    let mut sets = CellSets::<Single>::new(rt.alloc());
    assert!(rt; is_added(rt.alloc(), &mut sets, b"LOW", b"no_arc"));
    assert!(rt; is_added(rt.alloc(), &mut sets, b"LOAD", b"input"));
    assert!(rt; !is_added(rt.alloc(), &mut sets, b"LOW", b"buffer"));
    assert_eq!(rt; sets.len(), 2);
    assert_eq!(rt; sets.name(1).bytes(), b"LOAD".as_slice());
    assert_eq!(rt; sets.set(1).pin_count(), 3);
}
