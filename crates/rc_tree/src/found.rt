//! What a search has found so far.

/// The nodes of a net that a search has found. Nodes are numbered by the net, and anew in the order in which they are found.
#[derive(Drop)]
pub struct Found {
    /// The nodes in the order in which they were found, the driver's first.
    pub order: Vec<u32>,

    /// For each found node the place in the order of the node that it was found from; 0 for the first.
    pub parents: Vec<u32>,

    /// For each found node the resistor over which it was found; 0 for the first.
    pub vias: Vec<u32>,

    /// For each node of the net one more than its place in the order, or 0 where it is not found.
    pub numbers: Vec<u32>,

    /// For each resistor the place in the order of the node that was found over it, or 0.
    pub links: Vec<u32>,
}
