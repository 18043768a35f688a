//! What is known of a node that a section refers to.

/// What is known of a node.
#[derive(Clone, Copy)]
pub struct Mark {
    /// Whether it is listed as a connection.
    pub listed: bool,

    /// Whether it is listed, stands in a resistor, or has the net's name as its head.
    pub belongs: bool,

    /// Its number among the nodes of the section, once an element stands at it.
    pub number: Option<u32>,
}
