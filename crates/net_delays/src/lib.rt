//! The load of each net of a netlist, and the Elmore sum of each of its sinks, at each corner. Who finds them and who uses them need not know
//! each other.
#![tactic(auto)]

mod laws;
mod net_delays;

pub use laws::times_are_one;
pub use net_delays::NetDelays;
