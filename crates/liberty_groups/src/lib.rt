//! Liberty files (Liberty User Guide): their tokens, and the tree of groups and attributes that they say, or the one
//! token that cannot stand where it stands, with its line and the cause.
#![tactic(auto)]

mod builder;
mod events;
mod faults;
mod feeder;
mod filling;
mod flat;
mod laws;
mod modes;
mod parsing;
mod places;
mod progress;
mod reader;
mod rows;
mod scan;
mod texts;
mod tree;

pub use faults::{Cause, ParseEnd, SyntaxFault};
pub use laws::{one_fault, one_parting, one_tree};
pub use parsing::parse;
pub use rows::{AttrId, GroupId};
pub use tree::GroupTree;
