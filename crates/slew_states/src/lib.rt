//! The states of the nets of a netlist at each edge: known with a slew, absent, or stuck. The netlist is a list of arcs between
//! nets, and what an arc and a wire make of a slew is the caller's.
#![tactic(auto)]

mod arcs;
mod joining;
pub mod laws;
mod ordering;
mod settling;
mod states;
mod timing;

pub use arcs::{Driver, FlatArc};
pub use joining::worst_input;
pub use ordering::order_nets;
pub use settling::settle;
pub use states::{EdgeStates, PinState};
pub use timing::Timing;
