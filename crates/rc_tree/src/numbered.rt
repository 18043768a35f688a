//! A net whose nodes are numbered.

/// The numbers of a net's nodes: the driver's is 0, then come the sinks, then the other nodes of the section.
#[derive(Drop)]
pub struct Numbered {
    /// The number of each node of the section.
    pub spots: Vec<u32>,

    /// How many nodes there are.
    pub count: usize,
}
