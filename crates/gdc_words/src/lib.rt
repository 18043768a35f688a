//! The words of the command line of gdc: what they ask for, or their first fault. `read_words` reads them by the tables of
//! commands and keys; `help_text` and `version_text` are what `--help` and `--version` print.
#![tactic(auto)]

mod asked;
mod commands;
mod decimals;
mod faults;
mod help;
mod laws;
mod reading;
mod sizes;
mod words;

pub use asked::{Asked, Given};
pub use commands::{Command, Key, Libraries, Shape};
pub use faults::{UsageFault, UsageKind, WordsEnd};
pub use help::{help_text, version_text};
pub use laws::one_request;
pub use reading::read_words;
pub use words::Words;
