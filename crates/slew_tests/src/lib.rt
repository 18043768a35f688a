//! Tests of `graph_order` and `slew_states`: small graphs and a long one, against orders and cycles from outside; small netlists with a
//! plain rule for slews, worked by hand.
#![tactic(auto)]

#[cfg(test)]
mod tests;
