//! An order of the nodes of a graph in which each link leads from a node to a later one, or a cycle
//! where there is none.
#![tactic(auto)]

mod cycles;
mod ends;
mod fans;
pub mod laws;
mod ordering;
mod progress;

pub use ends::OrderEnd;
pub use fans::{Fan, fan_of};
pub use ordering::order_of;
