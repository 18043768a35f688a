//! Why an input is refused, and the line that says it; and the reading of a file, with which each command begins.
#![tactic(auto)]

mod input_files;
mod kinds;
mod laws;
mod lines;
mod look_ups;
mod refusal;
mod words;

pub use input_files::read_input;
pub use kinds::edge_word;
pub use laws::one_file;
pub use lines::write_refusal;
pub use look_ups::{ArcNames, refused_look_up};
pub use refusal::{FileKey, IndexKind, LimitKind, NumberKind, Refusal};
