//! The key of a node: what makes it the one that it is.
ghost use Rattle.std.specs.Prelude.{◌≡◌, IfOk};
ghost use Rattle.std.specs.Option.{option_copied};
ghost use Rattle.name_table.specs.NodeKeys.{key_of, same_key, same_tail};

use crate::spef_names::NodeName;
use crate::written_names::WrittenName;
use edge_io::{OutOfMemory, are_equal};
use std::alloc::Global;
use std::hash::{Hash, Hasher};
use std::marker::Model;

/// What makes a node the one that it is: its head and its tail, however they are written. Contracts see the two.
#[derive(Drop)]
pub struct NodeKey<'r> {
    name: KeyName<'r>,
}

// A node's name. Of most nodes head and tail stand in the file, and nothing is copied.
#[derive(Drop)]
enum KeyName<'r> {
    Written(WrittenName<'r>),
    Named(Box<NodeName>),
}

impl<'r> Model for NodeKey<'r> {
    ghost use Rattle.name_table.specs.NodeKeys.{Key};
    ghost use Rattle.name_table.specs.KeyOf.{key_in};

    ghost Value = { Key };

    ghost view = { λ key. key_in key.name };
}

impl<'r> PartialEq for NodeKey<'r> {
    ghost use Rattle.std.specs.Cmp.{partial_equiv_from_equiv};
    ghost use Rattle.name_table.specs.NodeKeys.{same_key};
    ghost use Rattle.name_table.specs.SameKeys.{keys_equiv};

    ghost eq = { same_key };

    ghost laws = { partial_equiv_from_equiv keys_equiv };

    #[inline]
    fn eq(&self, other: &NodeKey<'r>) -> bool {
        are_same(self, other)
    }
}

impl<'r> Eq for NodeKey<'r> {
    ghost use Rattle.name_table.specs.SameKeys.{keys_equiv};

    ghost laws = { keys_equiv };
}

// The tail comes last, so that nodes whose tails differ in their last byte stand side by side in the table.
impl<'r> Hash for NodeKey<'r> {
    ghost use Rattle.name_table.specs.NodeKeys.{key_writes};
    ghost use Rattle.name_table.specs.SameKeys.{hashed_alike};

    ghost hash_input = { key_writes };

    ghost respects_eq = { hashed_alike.fed };

    #[inline]
    fn hash<H: Hasher>(&self, state: &mut H) {
        state.write(self.head());
        match self.tail() {
            Some(tail) => state.write(tail),
            None => {}
        }
    }
}

// Whether two keys are those of one node. The tails of a net's nodes differ more often than their heads.
#[inline]
fn are_same(one: &NodeKey<'_>, other: &NodeKey<'_>) -> bool
    ensures { result ≡ same_key one.now other.now }
{
    same_tails(one.tail(), other.tail()) && are_equal(one.head(), other.head())
}

#[inline]
fn same_tails(one: Option<&[u8]>, other: Option<&[u8]>) -> bool
    ensures { result ≡ same_tail (option_copied one.entry) (option_copied other.entry) }
{
    match (one, other) {
        (Some(one), Some(other)) => are_equal(one, other),
        (None, None) => true,
        _ => false,
    }
}

impl<'r> NodeKey<'r> {
    /// The key of a node.
    pub fn of(alloc: Global, node: NodeName) -> Result<NodeKey<'r>, OutOfMemory>
        ensures { IfOk result (λ key. key ≡ key_of node) }
    {
        let Ok(node) = Box::new(alloc, node) else {
            return Err(OutOfMemory);
        };
        Ok(NodeKey {
            name: KeyName::Named(node),
        })
    }

    /// The key of a node whose name stands as it is written.
    #[inline]
    pub fn of_written(name: WrittenName<'r>) -> NodeKey<'r>
        ensures { result ≡ record { head = name.entry.head.now; tail = option_copied name.entry.tail } }
    {
        NodeKey {
            name: KeyName::Written(name),
        }
    }

    /// The node's head.
    #[inline]
    pub fn head(&self) -> &[u8]
        ensures { result.now ≡ self.now.head }
    {
        match &self.name {
            KeyName::Written(name) => name.head,
            KeyName::Named(node) => node.head.bytes(),
        }
    }

    /// The node's tail, if it has one.
    #[inline]
    fn tail(&self) -> Option<&[u8]>
        ensures { option_copied result ≡ self.now.tail }
    {
        match &self.name {
            KeyName::Written(name) => name.tail,
            KeyName::Named(node) => match &node.tail {
                Some(tail) => Some(tail.bytes()),
                None => None,
            },
        }
    }
}
