//! The parasitics of the nets of a flat netlist: the load of each net and the Elmore sum of each sink, from the sections of a SPEF file
//! (IEEE 1481).
//!
//! How the names of both meet. A net has the section whose name, as the text that it stands for, is the flat name of the net: the path
//! joined by `/`, a vector's bit with its index in brackets. In that text an unescaped divider of the file is `/`, unescaped bus
//! delimiters are `[` and `]`, and a backslash is left out; so a `/` that belongs to an escaped Verilog name is the same byte as one
//! between two parts, and the flat netlist has no two nets of one text. A pin of an instance is the node whose head is the flat
//! name of the instance and whose tail is the pin's name; a bit of a port of the design is the node that is its name as a head alone. A
//! node of a section is cut into head and tail at its last unescaped delimiter, and both are texts in the same sense.
#![tactic(auto)]

mod ends;
mod inputs;
mod laws;
mod net_pins;
mod net_times;
mod net_trees;
mod nets;
mod pin_names;
mod sink_loads;

pub use ends::ParasiticsEnd;
pub use laws::{named_apart, one_answer};
pub use nets::net_delays;
