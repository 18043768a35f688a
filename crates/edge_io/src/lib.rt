//! The edge between a program and what lies outside of it: named files, streams of bytes, and the
//! texts that are read and written. The work is generic over the two traits, so that what a program
//! does to its files and streams is proved, and can be tried in memory with faults at chosen calls.
#![tactic(auto)]

mod calls;
mod counting;
mod equality;
mod failures;
pub mod lists;
mod memory_shelf;
mod memory_sink;
mod reading;
mod real_files;
mod real_streams;
mod shelves;
mod sinks;
mod text_lists;
mod texts;
mod waiting;
mod writing;

pub use counting::Steps;
pub use equality::are_equal;
pub use failures::{Failed, OutOfMemory};
pub use memory_shelf::MemShelf;
pub use memory_sink::MemSink;
pub use reading::{ReadEnd, read_file};
pub use real_files::FileShelf;
pub use real_streams::{StdErr, StdOut};
pub use shelves::Shelf;
pub use sinks::Sink;
pub use text_lists::TextList;
pub use texts::Text;
pub use waiting::WaitingBytes;
pub use writing::{write_2, write_3, write_4, write_5, write_all};
