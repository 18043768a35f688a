//! Tests of `slew_order`: small designs, worked by hand.
#![tactic(auto)]

#[cfg(test)]
mod tests;
