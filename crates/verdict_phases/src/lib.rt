//! What the phases of a command answer, and how the code's answers follow them: a phase goes on with
//! a value or stops, by a refusal or at a file. The phase that every command shares, the reading of a
//! file under a limit, stands here whole.
#![tactic(auto)]

mod ends;
mod file_reading;

pub use ends::{NoFileEnd, PhaseEnd};
pub use file_reading::read_phase;
