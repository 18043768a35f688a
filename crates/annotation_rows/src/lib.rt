//! The rows that annotate a design with its delays: one for each wire from the driver of a net to a sink, and one for each path through
//! an instance of a cell that a transition takes.
#![tactic(auto)]

mod annotation;
mod cell_paths;
mod laws;
mod path_delays;
mod path_rows;
mod put_times;
mod sdf_ends;
mod spelled_netlist;
mod timed_netlist;
mod wire_rows;

pub use annotation::annotation_rows;
pub use laws::{live_paths_have_rows, rows_are_printed, rows_are_well_spelled, values_are_delays};
