//! The delays of a design: the loads and Elmore sums of its nets, the slews of its pins, and the rows that annotate it with its delays,
//! from a netlist, libraries and a SPEF file.
#![tactic(auto)]

mod annotated;
mod annotation;
mod delay_phase;
mod design_timing;
mod laws;
mod settings;
mod slew_phase;

pub use annotated::Annotated;
pub use annotation::{annotate, annotate_from};
pub use laws::{one_annotation, one_delays_answer, one_slews_answer};
pub use settings::{Files, Settings};
