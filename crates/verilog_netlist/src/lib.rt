//! Structural Verilog (IEEE 1364-2005): its tokens, and what a netlist says, or the one token that cannot stand where it stands.
//! `parse` reads the bytes into entries, which are what the file says in its order: modules, ports, wires, instances, connections. It
//! refuses the first name that is repeated or lacks its direction, and the first bad range. What it answers are the `Modules`: their
//! names, their instances, and the bits that are joined to each port.
#![tactic(auto)]

mod declared;
mod directions;
mod entries;
mod faults;
mod kinds;
mod laws;
mod modes;
mod modules;
mod name_text;
mod namespaces;
mod net_names;
mod netlist;
mod parsing;
mod places;
mod port_names;
mod ranges;
mod reader;
mod reading;
mod repeats;
mod runs;
mod scan;
mod steps;
mod tables;
mod words;

pub use entries::Range;
pub use modules::Modules;
pub use net_names::Way;
pub use netlist::VerilogEnd;
pub use parsing::parse;
pub use runs::{Bit, Run};
