//! The slews of a flat netlist: the load of each net and the Elmore sum of each sink, the arcs between nets, and the slew at each pin.
#![tactic(auto)]

mod arcs;
mod at_corner;
mod delays;
mod design;
mod ends;
mod flattening;
mod laws;
mod limits;
mod loaded;
mod lookups;
mod net_order;
mod net_states;
mod propagation;
mod refusals;
mod sinks;
mod slews;
mod wires;

pub use arcs::ArcAt;
pub use ends::{ArcList, SlewEnd};
pub use flattening::cell_arc;
pub use laws::{
    corners_agree, deep_slews_are_the_same, half_up_is_rounding, live_arcs_have_delays,
    lookups_are_a_function, pins_agree, slews_are_one, wires_are_a_function, worst_at_pins,
};
pub use loaded::LoadedNetlist;
pub use lookups::{EdgeLookups, PartEnd};
pub use net_delays::NetDelays;
pub use propagation::propagate;
pub use slews::Slews;
