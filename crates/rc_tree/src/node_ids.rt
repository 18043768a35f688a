//! The nodes of a tree.

/// The number of a node of a tree, from 0. Node 0 is the driver's, and a parent's number is below its children's.
#[derive(Clone, Copy)]
pub struct NodeId(pub u32);
