//! Elmore delays (W. C. Elmore, The Transient Response of Damped Linear Networks, 1948) of every node of an RC tree at every
//! corner: one pass upward for the capacitance below each node, one downward for the delays. It takes no memory.
#![tactic(auto)]

mod corners;
mod passes;
mod rounded;

pub use corners::elmore_into;
pub use rounded::sink_femto;
