//! The edges of an output, and the tables of an edge.

/// An edge of an output.
#[derive(Clone, Copy)]
pub enum Edge {
    Rise,
    Fall,
}

/// What a table of an edge is of.
#[derive(Clone, Copy)]
pub enum Part {
    /// The delay to the edge.
    Delay,
    /// The transition of the edge.
    Transition,
}
