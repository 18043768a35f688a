//! Tests of `gdc_words`, and of `gdc_run::run` over a shelf and sinks in memory: what no clause says, against values from outside.
#![tactic(auto)]

#[cfg(test)]
mod tests;
