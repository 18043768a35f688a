//! The text of a SPEF file (IEEE 1481): its tokens, what they say of a design's nets, and the token that no text can have
//! there. `parse` answers a `SpefFile`; the numbers that it tells are those of tokens.
#![tactic(auto)]

mod broken;
mod classes;
mod entries;
mod file;
mod file_texts;
mod head;
mod head_ends;
mod head_items;
mod head_laws;
mod lanes;
mod laws;
mod modes;
mod name_map;
mod parsing;
mod reader;
mod references;
mod scan;
mod sections;
mod starts;
mod steps;
mod units;
mod words;

pub use entries::{Cap, Conn, Res};
pub use file::SpefFile;
pub use head::{Head, read_head};
pub use head_ends::HeadEnd;
pub use head_laws::{map_in_order, one_head_end};
pub use laws::{one_dead_token, one_spef, one_tokens, sections_in_order, token_texts};
pub use parsing::{SpefEnd, parse};
pub use references::{ResolveEnd, WrittenNames};
