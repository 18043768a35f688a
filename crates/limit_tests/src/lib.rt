//! Tests of `gdc_run::run` at its limits, over a shelf and sinks in memory, and of `trial_files`, against files by hand and lengths from
//! another generator. They are made for the gate, which builds tests by LLVM: the large ones take `rt try` longer than it waits.
#![tactic(auto)]

#[cfg(test)]
mod tests;
