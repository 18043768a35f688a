//! A library with its index.
ghost use Rattle.std.specs.Prelude.{◌≡◌, IfOk, IfErr};
ghost use Rattle.liberty_groups.specs.Tables.{tree_of};
ghost use Rattle.timing_arcs.specs.CellModel.{IsModel};
ghost use Rattle.timing_arcs.specs.CellFaults.{IsCellFault};

use crate::building::build_group;
use crate::library_basis::{LibraryBasis, library_basis};
use cell_models::Cell;
use edge_io::{OutOfMemory, Text};
use liberty_groups::GroupTree;
use liberty_tables::{CellFault, GroupIndex};
use std::alloc::Global;
use std::marker::Model;

/// A Liberty library, with what the timing models of its cells stand on: its units and templates, or why no cell has a model, and its
/// cells by their names. Contracts see the tables of its tree.
#[derive(Drop)]
pub struct Library {
    tree: GroupTree,
    basis: Result<LibraryBasis, CellFault>,
    cells: GroupIndex,
}

impl Model for Library {
    ghost use Rattle.liberty_groups.specs.Tables.{Tables};
    ghost use Rattle.timing_arcs.specs.IndexedLibrary.{IsIndexed};

    ghost Value = { Tables };

    ghost view = { λ library. library.tree };

    ghost invariant = { λ library. IsIndexed library.tree library.basis library.cells };
}

impl Library {
    /// The library of a tree. It takes two passes over the groups of the library and one over the attributes of each template.
    pub fn of(alloc: Global, tree: GroupTree) -> Result<Library, OutOfMemory>
        ensures { IfOk result (λ library. library ≡ tree) }
    {
        let cells = GroupIndex::new(alloc, &tree, tree.root(), b"cell")?;
        let basis = library_basis(alloc, &tree)?;
        Ok(Library { tree, basis, cells })
    }

    /// The timing model of the cell of a name (Liberty, `cell`): of the first `cell` group whose first argument this is. Of several faults
    /// that which is asked for first is answered, as [`CellFault`] says. It is one look-up, and then takes the cell's own groups.
    pub fn build_cell(&self, alloc: Global, name: &Text) -> Result<Cell, CellFault>
        ensures ok { IfOk result (IsModel (tree_of self.now) name.now) }
        // Where no question has a fault, no fault but want of memory is answered.
        ensures refused { IfErr result (IsCellFault (tree_of self.now) name.now) }
    {
        let Some(group) = self.cells.find(name.bytes()) else {
            return Err(CellFault::NoSuchCell);
        };
        match &self.basis {
            Ok(basis) => build_group(alloc, &self.tree, basis, group),
            Err(fault) => Err(*fault),
        }
    }
}
