//! The cells that a design uses.
ghost use Rattle.std.specs.Prelude.{◌≡◌, ◌<◌, ◌↔◌, [], ◌∷◌, ◌++◌, length, slice_get, Some, Contains, IsTrue, IfSome, IfNone, OnOk, OnErr};
ghost use Rattle.name_table.specs.Names.{AreDistinct};
ghost use Rattle.cell_models.specs.NamedSets.{NamedCells, set_names, set_cells};

use crate::cell_set::CellSet;
use corner_set::CornerSet;
use edge_io::{OutOfMemory, Text};
use name_table::Names;
use std::alloc::Global;
use std::marker::Model;

/// The most names that a table of names numbers.
const MOST_NAMES: usize = 1 << 30;

// A cell with its name.
#[derive(Drop)]
struct NamedSet<C: CornerSet> {
    name: Text,
    set: CellSet<C>,
}

impl<C: CornerSet> Model for NamedSet<C> {
    ghost use Rattle.cell_models.specs.NamedSets.{NamedCells};

    ghost Value = { NamedCells };

    ghost view = { λ named. record { name = named.name; cells = named.set } };
}

/// Cells by their names, in the order in which they are added. Contracts see the list of them, each with its name.
#[derive(Drop)]
pub struct CellSets<C: CornerSet> {
    sets: Vec<NamedSet<C>>,
    // the names, each numbered by the place of its cell
    names: Names,
    alloc: Global,
}

impl<C: CornerSet> Model for CellSets<C> {
    ghost use Rattle.std.specs.Prelude.{◌≡◌, List};
    ghost use Rattle.cell_models.specs.NamedSets.{NamedCells, set_names};

    ghost Value = { List NamedCells };

    ghost view = { λ sets. sets.sets.items };

    ghost invariant = { λ sets. sets.names ≡ set_names sets.sets.items };
}

impl<C: CornerSet> CellSets<C> {
    /// No cell. It takes no memory.
    pub fn new(alloc: Global) -> CellSets<C>
        ensures { result ≡ [] }
    {
        CellSets {
            sets: Vec::new(alloc),
            names: Names::new(alloc),
            alloc,
        }
    }

    /// Puts a cell at the end, by a name that no other has. Where memory is short the cell is dropped. More than 2^30 cells are
    /// out of memory.
    pub fn add(&mut self, name: &Text, set: CellSet<C>) -> Result<(), OutOfMemory>
        requires { ¬ Contains (set_names self.old) name.now }
        ensures ok { OnOk result (self.new ≡ self.old ++ record { name = name.now; cells = set } ∷ []) }
        ensures err { OnErr result (self.new ≡ self.old) }
    {
        let copy = Text::from_bytes(self.alloc, name.bytes())?;
        add_named(
            &mut self.sets,
            &mut self.names,
            NamedSet { name: copy, set },
            name.bytes(),
        )
    }

    /// How many cells there are.
    pub fn len(&self) -> usize
        ensures { result ≡ length self.now }
    {
        self.sets.len()
    }

    /// Whether there is no cell.
    pub fn is_empty(&self) -> bool
        ensures { IsTrue result ↔ (self.now ≡ []) }
    {
        self.sets.is_empty()
    }

    /// The place of the cell of a name, if there is one. It is one look-up, and takes no memory.
    pub fn find(&self, name: &Text) -> Option<usize>
        ensures found { IfSome result (λ i. slice_get (set_names self.now) i ≡ Some name.now) }
        ensures within { IfSome result (λ i. i < length self.now) }
        ensures absent { IfNone result (¬ Contains (set_names self.now) name.now) }
        ensures distinct { AreDistinct (set_names self.now) }
    {
        let id = self.names.find(name.bytes())?;
        Some(id.0 as usize)
    }

    /// The names of the cells, each numbered by the place of its cell.
    pub fn names(&self) -> &Names
        ensures { result.now ≡ set_names self.now }
    {
        &self.names
    }

    /// The name with which the cell at a place was added.
    pub fn name(&self, i: usize) -> &Text
        requires { i < length self.now }
        ensures { slice_get (set_names self.now) i ≡ Some result.now }
    {
        let named = &self.sets[i];
        &named.name
    }

    /// The cell at a place.
    pub fn set(&self, i: usize) -> &CellSet<C>
        requires { i < length self.now }
        ensures { slice_get (set_cells self.now) i ≡ Some result.now }
    {
        let named = &self.sets[i];
        &named.set
    }
}

// Puts a cell and its name at the ends, or neither.
fn add_named<C: CornerSet>(
    sets: &mut Vec<NamedSet<C>>,
    names: &mut Names,
    named: NamedSet<C>,
    name: &[u8],
) -> Result<(), OutOfMemory>
    requires named { named.name ≡ name.now }
    requires absent { ¬ Contains names.old name.now }
    ensures sets { OnOk result (sets.new.items ≡ sets.old.items ++ named ∷ []) }
    ensures names { OnOk result (names.new ≡ names.old ++ name.now ∷ []) }
    ensures err_sets { OnErr result (sets.new.items ≡ sets.old.items) }
    ensures err_names { OnErr result (names.new ≡ names.old) }
{
    let held = sets.len();
    if names.len() >= MOST_NAMES || sets.push(named).is_err() {
        return Err(OutOfMemory);
    }
    if names.intern(name).is_ok() {
        return Ok(());
    }
    sets.truncate(held);
    Err(OutOfMemory)
}
