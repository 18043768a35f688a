//! SDF files (IEEE 1497-2001): their tokens, and the rows of delays that they say, or the one token that cannot stand where
//! it stands, with the cause. `read` answers the rows; `print_rows` and `print_summary` tell them.
#![tactic(auto)]

mod ends;
mod laws;
mod modes;
mod numbers;
mod printing;
mod reader;
mod reading;
mod rows;
mod scan;
mod summary;
mod texts;
mod times;
mod timescales;
mod words;

pub use ends::{SdfCause, SdfEnd};
pub use printing::print_rows;
pub use reading::read;
pub use rows::{SdfRow, SdfRows, Value};
pub use summary::print_summary;
