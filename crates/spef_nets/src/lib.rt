//! The nets of a SPEF file (IEEE 1481): for each section its nodes, its connections, its capacitances with coupling grounded
//! where it belongs, and its resistors, at each corner.
#![tactic(auto)]

mod amounts;
mod draft;
mod elements;
mod ends;
mod laws;
mod marks;
mod net;
mod net_keys;
mod net_name;
mod net_names;
mod node_names;
mod node_table;
mod node_tokens;
mod parts;
mod reading;
mod referred;
mod section_reading;
mod sections;
mod source;
mod spellings;
mod tables;

pub use ends::SectionEnd;
pub use laws::{computed_names, first_is_least, one_section_end};
pub use net::Net;
pub use net_keys::NetKeys;
pub use parts::{Listed, Resistor};
pub use reading::read_sections;
pub use sections::Sections;
