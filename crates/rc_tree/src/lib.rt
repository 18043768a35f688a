//! RC trees: the elements of a net as resistors and capacitances between nodes, and the tree that they form.
#![tactic(auto)]

mod branches;
mod building;
mod ends;
mod few_pins;
mod filling;
mod found;
mod laws;
mod laying;
mod layout;
mod listed_pins;
mod lone;
mod marking;
mod names;
mod node_ids;
mod node_table;
mod numbered;
mod numbering;
mod pin_names;
mod pin_source;
mod pin_table;
mod pins;
mod planting;
mod scratch;
mod searching;
mod threads;
mod tree;
mod workspace;

pub use ends::TreeEnd;
pub use laws::{no_stranger, one_elmore, one_shape, two_passes};
pub use listed_pins::ListedPins;
pub use node_ids::NodeId;
pub use pin_names::PinName;
pub use pin_source::PinSource;
pub use pins::PinLoads;
pub use scratch::Scratch;
pub use tree::RcTree;
pub use workspace::Workspace;
