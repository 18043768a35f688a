//! What four of the commands give of their files: `wires` the rows of a SPEF file, `show` those of an SDF file, `lookup` the delays of a
//! cell's arcs, and `flat` a flat netlist; and the text of the last two.
#![tactic(auto)]

mod arc_rows;
mod arc_text;
mod flat_command;
mod flat_lines;
mod flat_text;
mod lookup_command;
mod show_command;
mod wires_command;

pub use arc_rows::{ArcRow, ArcRows, Point};
pub use arc_text::write_arcs;
pub use flat_command::flat;
pub use flat_text::write_flat;
pub use lookup_command::lookup;
pub use show_command::show;
pub use wires_command::wires;
