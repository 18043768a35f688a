//! Models of cells that stand in small libraries.
use edge_io::Text;
use liberty_groups::parse;
use std::alloc::Global;
use timing_arcs::{Cell, CellFault, Library};

/// A library with its index, or nothing where the text is no library, or there is no memory.
fn library_of(alloc: Global, text: &[u8]) -> Option<Library> {
    if text.len() >= 1 << 20 {
        return None;
    }
    let tree = parse(alloc, text).ok()?;
    Library::of(alloc, tree).ok()
}

fn built_from(alloc: Global, library: &Library, cell: &[u8]) -> Result<Cell, CellFault> {
    match Text::from_bytes(alloc, cell) {
        Ok(name) => library.build_cell(alloc, &name),
        Err(_) => Err(CellFault::OutOfMemory),
    }
}

/// What is built for a cell of a library. A text that is none is out of memory here.
pub fn built(alloc: Global, text: &[u8], cell: &[u8]) -> Result<Cell, CellFault> {
    match library_of(alloc, text) {
        Some(library) => built_from(alloc, &library, cell),
        None => Err(CellFault::OutOfMemory),
    }
}
