//! Tests of `spef_text`, `spef_nets`, `rc_tree` and `elmore_pass`: what no clause says, against values from outside.
#![tactic(auto)]

#[cfg(test)]
mod tests;
