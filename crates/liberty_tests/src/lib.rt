//! Tests of `liberty_groups`, `nldm_lookup` and `timing_arcs`: what no clause says, against values from outside.
#![tactic(auto)]

#[cfg(test)]
mod tests;
