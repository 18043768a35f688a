//! Tests of `sdf_reader` and `sdf_writer`, and of both together: what no clause says, against values from outside.
#![tactic(auto)]

#[cfg(test)]
mod tests;
