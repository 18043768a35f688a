//! Nodes of a net, numbered by their first places.
ghost use Rattle.std.specs.Prelude.{◌≡◌, ◌≢◌, [], length, slice_get, Some, false, IfOk, OnOk, IfSome, IfNone, AllPairs};
ghost use Rattle.name_table.specs.NodeKeys.{among};
ghost use Rattle.rc_tree.specs.Nodes.{with_node};

use edge_io::OutOfMemory;
use indexmap::IndexSet;
use name_table::{NameHash, NodeKey};
use std::alloc::Global;
use std::marker::Model;

/// Nodes, numbered in the order in which they came, each once. Contracts see the list of them.
#[derive(Drop)]
pub struct NodeTable<'p> {
    keys: IndexSet<NodeKey<'p>, NameHash>,
}

impl<'p> Model for NodeTable<'p> {
    ghost use Rattle.std.specs.Prelude.{◌≢◌, List, AllPairs};
    ghost use Rattle.rc_tree.specs.Nodes.{Node};

    ghost Value = { List Node };

    ghost view = { λ t. t.keys.keys };

    ghost invariant = { λ t. AllPairs (λ one other. one ≢ other) t.keys.keys };
}

impl<'p> NodeTable<'p> {
    /// No node yet, and room for so many: never are more put in.
    pub fn with_room(alloc: Global, many: usize) -> Result<NodeTable<'p>, OutOfMemory>
        ensures { IfOk result (λ table. table ≡ []) }
    {
        let keys = IndexSet::with_capacity_and_hasher(alloc, many, NameHash::default())?;
        Ok(NodeTable { keys })
    }

    /// How many nodes there are.
    pub fn len(&self) -> usize
        ensures len { result ≡ length self.now }
        ensures apart { AllPairs (λ one other. one ≢ other) self.now }
    {
        self.keys.len()
    }

    /// The number of a node, if it is held. It takes no memory.
    #[inline]
    pub fn find(&self, key: &NodeKey<'p>) -> Option<usize>
        ensures found { IfSome result (λ place. slice_get self.now place ≡ Some key.now) }
        ensures absent { IfNone result (among key.now self.now ≡ false) }
    {
        place_in(&self.keys, key)
    }

    /// Puts a node at the end, where it is not held already.
    pub fn intern(&mut self, key: NodeKey<'p>) -> Result<(), OutOfMemory>
        ensures { OnOk result (self.new ≡ with_node self.old key.entry) }
    {
        put(&mut self.keys, key)
    }
}

// The place of a key, if the table has it.
#[inline]
fn place_in<'p>(keys: &IndexSet<NodeKey<'p>, NameHash>, key: &NodeKey<'p>) -> Option<usize>
    ensures found { IfSome result (λ place. slice_get keys.now.keys place ≡ Some key.now) }
    ensures absent { IfNone result (among key.now keys.now.keys ≡ false) }
{
    keys.get_index_of(key)
}

// Puts a key at the end that is not held.
fn put<'p>(keys: &mut IndexSet<NodeKey<'p>, NameHash>, key: NodeKey<'p>) -> Result<(), OutOfMemory>
    requires { AllPairs (λ one other. one ≢ other) keys.old.keys }
    ensures nodes { OnOk result (keys.new.keys ≡ with_node keys.old.keys key.entry) }
    ensures apart { AllPairs (λ one other. one ≢ other) keys.new.keys }
{
    let Ok(_) = keys.insert_full(key) else {
        return Err(OutOfMemory);
    };
    Ok(())
}
