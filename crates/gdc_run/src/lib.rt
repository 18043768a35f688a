//! What gdc does between its words and its exit status: delays of wires, from SPEF to SDF; delays of the wires and the cells of a
//! design; delays of a cell of a Liberty library; the flat netlist of a design; the rows of SDF files; and the summary of the delays of a
//! design that is made by its size. `run` is the one call that the program makes. The theorem of the program is its contract. Files and
//! streams are traits here, so that a run can be tried in memory.
#![tactic(auto)]

mod calc;
mod design;
mod laws;
mod lines;
mod outcome;
mod output;
mod performing;
mod top;
mod trial;

pub use laws::one_verdict;
pub use outcome::Outcome;
pub use top::run;
