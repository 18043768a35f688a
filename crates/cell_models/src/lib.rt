//! Timing models of cells: pins, arcs from input to output pins, and a delay and a transition table for each edge of an arc; a
//! cell at all corners, which have one shape; and the cells of a design by their names. It knows no library format.
#![tactic(auto)]

mod cell;
mod cell_list;
mod cell_set;
mod cell_sets;
mod edge;
mod joining;
mod shape;

pub use cell::{Arc, ArcKind, Cell, Direction, EdgeTables, Pin};
pub use cell_list::CellList;
pub use cell_set::CellSet;
pub use cell_sets::CellSets;
pub use edge::{Edge, Part};
pub use joining::{JoinEnd, join_corners, one_shape_fault};
pub use shape::{Entry, ShapeFault};
