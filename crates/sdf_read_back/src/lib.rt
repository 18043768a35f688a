//! What is read of an SDF text (IEEE 1497-2001) that was written: the rows that were written, and no others.
#![tactic(auto)]

mod laws;

pub use laws::{nodes_settle, read_back, settled_read_back, well_spelled_nodes};
