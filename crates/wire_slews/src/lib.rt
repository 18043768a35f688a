//! What a wire does to a slew: nothing, or it is joined to the wire's own slew as the root of the sum of their squares.
//! Whole numbers throughout; nothing takes memory.
#![tactic(auto)]

mod laws;
mod roots;
mod slews;

pub use laws::one_wire_slew;
pub use roots::root;
pub use slews::wire_slew;
