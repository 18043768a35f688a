//! Tests of the crates at the bottom: `delay_units`, `wire_slews`, `edge_io`, `corner_set` and `name_table`. They try what no clause says,
//! against values from outside.
#![tactic(auto)]

#[cfg(test)]
mod tests;
