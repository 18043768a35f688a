//! Cells of a Liberty library as timing models: pins, arcs from input to output pins, and a delay and a transition table for
//! each edge of an arc; or the first fault that stands in the way.
#![tactic(auto)]

mod building;
mod capacitances;
mod cell_reading;
mod copied_arcs;
mod delay_groups;
mod laws;
mod library;
mod library_basis;
mod pins;
mod related_pins;

pub use cell_models::{
    Arc, ArcKind, Cell, CellList, CellSet, CellSets, Direction, EdgeTables, Entry, JoinEnd, Pin,
    ShapeFault, join_corners, one_shape_fault,
};
pub use laws::{models_have_whole_tables, one_cell_answer};
pub use liberty_tables::{CellFault, one_table};
pub use library::Library;
