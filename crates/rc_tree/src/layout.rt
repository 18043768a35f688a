//! Where everything of a net stands in its tree.

use crate::node_ids::NodeId;

/// The nodes of a tree, and where the nodes of the section and the sinks stand in it.
#[derive(Drop)]
pub struct NodeLayout<'a> {
    /// The parent of each node; 0 for the first.
    pub parents: &'a [u32],

    /// The resistor of the section that links each node to its parent; 0 for the first.
    pub vias: &'a [u32],

    /// The place of each node of the section.
    pub spots: &'a [u32],

    /// The place of each sink.
    pub sinks: &'a [NodeId],
}

/// Lists of places in a tree.
#[derive(Drop)]
pub struct TreePlaces {
    /// The place of each node of the section.
    pub nodes: Vec<u32>,

    /// The place of each sink.
    pub sinks: Vec<NodeId>,
}
