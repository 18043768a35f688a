//! The nodes that a section names, each at its place.
ghost use Rattle.std.specs.Prelude.{◌≡◌, ◌+◌, false, [], slice_get, Some, IfOk, OnOk, IfSome, IfNone};
ghost use Rattle.name_table.specs.NodeKeys.{among};
ghost use Rattle.spef_nets.specs.Refs.{IsInterned};

use edge_io::OutOfMemory;
use edge_io::lists::{empty, push};
use indexmap::IndexSet;
use name_table::{NameHash, NodeKey};
use std::alloc::Global;
use std::hash::Hash;
use std::marker::Model;

/// So many nodes stand in a list, which is searched through; those behind them stand in a table.
const FEW: usize = 8;

/// Where so many nodes are to come, a net is large, and all of them stand in the table.
pub const MANY: usize = 48;

/// Nodes, each once, in the order in which they came. Most nets are small, and for a few nodes no hash is taken and no table made.
#[derive(Drop)]
pub struct NodeTable<'r> {
    few: Vec<NodeKey<'r>>,
    // those behind the few
    keys: IndexSet<NodeKey<'r>, NameHash>,
    // how many may stand in the list: none where many are to come
    most: usize,
}

impl<'r> Model for NodeTable<'r> {
    ghost use Rattle.std.specs.Prelude.{List, ◌++◌};
    ghost use Rattle.name_table.specs.NodeKeys.{Key};

    ghost Value = { List Key };

    ghost view = { λ table. table.few.items ++ table.keys.keys };
}

impl<'r> NodeTable<'r> {
    /// No node. It takes no memory.
    pub fn new(alloc: Global) -> NodeTable<'r>
        ensures { result ≡ [] }
    {
        NodeTable {
            few: Vec::new(alloc),
            keys: IndexSet::with_hasher(alloc, NameHash::default()),
            most: FEW,
        }
    }

    /// Lets go of all nodes, and makes room for so many. The list of the few keeps its memory.
    pub fn empty(&mut self, alloc: Global, many: usize) -> Result<(), OutOfMemory>
        ensures { OnOk result (self.new ≡ []) }
    {
        let (most, room) = if many < MANY { (FEW, 0) } else { (0, many) };
        empty(&mut self.few, most)?;
        empty_table(alloc, &mut self.keys, room)?;
        self.most = most;
        Ok(())
    }

    /// Whether all nodes stand in the list.
    pub fn are_few(&self) -> bool {
        self.keys.is_empty()
    }

    /// The place of a node: its own where it is held, and else a new last one. It is one look-up.
    pub fn intern(&mut self, key: NodeKey<'r>) -> Result<usize, OutOfMemory>
        ensures { IfOk result (IsInterned self.old self.new key.entry) }
    {
        if let Some(place) = place_among(self.few.as_slice(), &key) {
            return Ok(place);
        }
        let few = self.few.len();
        if few < self.most && self.keys.is_empty() {
            push(&mut self.few, key)?;
            return Ok(few);
        }
        let place = intern(&mut self.keys, key)?;
        let place = behind(few, place)?;
        Ok(place)
    }
}

// The place of a node in a list, if it stands there.
fn place_among(few: &[NodeKey<'_>], key: &NodeKey<'_>) -> Option<usize>
    ensures found { IfSome result (λ place. slice_get few.now place ≡ Some key.now) }
    ensures absent { IfNone result (among key.now few.now ≡ false) }
{
    for place in 0..few.len() {
        if *key == few[place] {
            return Some(place);
        }
    }
    None
}

// A place behind so many others.
fn behind(many: usize, place: usize) -> Result<usize, OutOfMemory>
    ensures { IfOk result (λ sum. sum ≡ place + many) }
{
    match place.checked_add(many) {
        Some(sum) => Ok(sum),
        None => Err(OutOfMemory),
    }
}

// The place of a node in the table, which gets it as its last where it is not held.
fn intern<'r>(
    keys: &mut IndexSet<NodeKey<'r>, NameHash>,
    key: NodeKey<'r>,
) -> Result<usize, OutOfMemory>
    ensures { IfOk result (IsInterned keys.old.keys keys.new.keys key.entry) }
{
    let Ok((place, _)) = keys.insert_full(key) else {
        return Err(OutOfMemory);
    };
    Ok(place)
}

// Empties a table, and makes room for so many items. One that holds something is let go of, since to empty it would take as long as
// it is large.
fn empty_table<T: Eq + Hash + Drop>(
    alloc: Global,
    table: &mut IndexSet<T, NameHash>,
    many: usize,
) -> Result<(), OutOfMemory>
    ensures { OnOk result (table.new.keys ≡ []) }
{
    if !table.is_empty() {
        *table = IndexSet::with_hasher(alloc, NameHash::default());
    }
    if many > 0 {
        *table = IndexSet::with_capacity_and_hasher(alloc, many, NameHash::default())?;
    }
    Ok(())
}
