//! Tests of `verilog_netlist` and `hierarchy`: what no clause says, against values from outside.
#![tactic(auto)]

#[cfg(test)]
mod tests;
