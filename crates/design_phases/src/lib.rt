//! The phases that read a design: its netlist, its libraries, the models of its cells, and its flat netlist. Each answers a value, or
//! refuses.
#![tactic(auto)]

mod cell_phase;
mod design_reading;
mod laws;
mod library_phases;
mod library_reading;
mod link_phase;
mod netlist_phase;
mod use_phase;

pub use cell_phase::model_cells;
pub use design_reading::{Design, Inputs, link_inputs, read_design, read_inputs};
pub use laws::{
    one_cell, one_design, one_inputs, one_library, one_link, one_linking, one_models, one_netlist,
    one_use_answer,
};
pub use library_phases::{model_cell, parse_library};
pub use library_reading::{Libraries, library_key, read_libraries, read_library};
pub use link_phase::link_design;
pub use netlist_phase::parse_netlist;
pub use use_phase::use_cells;
