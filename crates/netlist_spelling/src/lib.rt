//! The names of a flat netlist are well spelled in SDF (IEEE 1497-2001), whatever bytes a netlist's names have.
#![tactic(auto)]

mod laws;

pub use laws::flat_names_are_well_spelled;
