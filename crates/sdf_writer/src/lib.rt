//! The SDF text of the delays of wires and of paths through cells (IEEE 1497-2001), for one corner or three.
//! Rows are collected first; then the text is written to a sink, through one buffer of fixed size.
//! Names come in the spelling of SDF, delays in femtoseconds.
#![tactic(auto)]

mod cells;
mod ends;
mod entries;
mod names;
mod paths;
mod rows;
mod text;
mod text_sink;
mod times;
mod values;

pub use ends::WireEnd;
pub use paths::PathNames;
pub use rows::Rows;
pub use text::write;
pub use text_sink::sdf_text_of;
