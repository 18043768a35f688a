//! The pins of a net by which the nodes of its section are numbered.
ghost use Rattle.std.specs.Prelude.{◌≡◌, ◌≢◌, false, length, slice_get, Some, IfSome, IfNone, AllPairs};
ghost use Rattle.name_table.specs.NodeKeys.{among};

use crate::few_pins::FewPins;
use crate::node_table::NodeTable;
use name_table::NodeKey;
use std::marker::Model;

/// The pins of a net, each by its number. Contracts see the list of their nodes.
#[derive(Drop)]
pub struct PinTable<'p, 's> {
    pub pins: Pins<'p, 's>,
}

/// Most nets have a few pins.
#[derive(Drop)]
pub enum Pins<'p, 's> {
    Few(FewPins<'p, 's>),
    Many(NodeTable<'p>),
}

impl<'p, 's> Model for PinTable<'p, 's> {
    ghost use Rattle.std.specs.Prelude.{◌≢◌, List, AllPairs};
    ghost use Rattle.rc_tree.specs.Nodes.{Node};
    ghost use Rattle.rc_tree.specs.NodesIn.{nodes_in};

    ghost Value = { List Node };

    ghost view = { λ t. nodes_in t.pins };

    ghost invariant = { λ t. AllPairs (λ one other. one ≢ other) (nodes_in t.pins) };
}

impl<'p, 's> PinTable<'p, 's> {
    /// How many pins there are.
    pub fn len(&self) -> usize
        ensures len { result ≡ length self.now }
        ensures apart { AllPairs (λ one other. one ≢ other) self.now }
    {
        match &self.pins {
            Pins::Few(pins) => pins.len(),
            Pins::Many(table) => table.len(),
        }
    }

    /// The number of the pin that has this key, if there is one: a number that it is likely to have is tried first. It takes no memory.
    #[inline]
    pub fn find(&self, key: &NodeKey<'p>, near: usize) -> Option<usize>
        ensures found { IfSome result (λ place. slice_get self.now place ≡ Some key.now) }
        ensures absent { IfNone result (among key.now self.now ≡ false) }
    {
        match &self.pins {
            Pins::Few(pins) => pins.find(key, near),
            Pins::Many(table) => table.find(key),
        }
    }
}
