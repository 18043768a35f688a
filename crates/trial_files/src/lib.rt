//! The files of a trial: a netlist, a library and a SPEF file of a shape and a size, so that a large run can be made with no files at
//! hand. Each text is exactly that of its definition. A shelf in memory holds them.
#![tactic(auto)]

mod block_netlist;
mod block_spef;
mod chain;
mod files;
mod library;
mod numbers;
mod shelf;
mod spef_head;

pub use files::{TrialFiles, block_files, chain_files};
pub use shelf::TrialShelf;
