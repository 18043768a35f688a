//! Texts that several crates of tests work with: files that are worked by hand, and what stands before what is expected of them. It has
//! constants alone, and no crate of the program stands on it.
#![tactic(auto)]

/// A library of six cells: an inverter whose tables have two slews and two loads, another with the load first, an exclusive or of both
/// senses, a flip-flop whose second output has a rise alone, a gate with two inputs, and a cell with an output alone. Times are
/// picoseconds, capacitances femtofarads.
pub const LIBRARY: &[u8] = b"library (L) {
  time_unit : \"1ps\";
  capacitive_load_unit (1, ff);
  lu_table_template (t22) {
    variable_1 : input_net_transition;
    variable_2 : total_output_net_capacitance;
    index_1 (\"10, 30\"); index_2 (\"1, 3\"); }
  lu_table_template (t22l) {
    variable_1 : total_output_net_capacitance;
    variable_2 : input_net_transition;
    index_1 (\"1, 3\"); index_2 (\"10, 30\"); }
  cell (INV) {
    pin (A) { direction : input; capacitance : 1; }
    pin (Z) { direction : output;
      timing () { related_pin : \"A\"; timing_sense : negative_unate;
        cell_rise (t22) { values (\"20, 40\", \"30, 60\"); }
        cell_fall (t22) { values (\"10, 20\", \"16, 32\"); }
        rise_transition (t22) { values (\"12, 16\", \"20, 28\"); }
        fall_transition (t22) { values (\"10, 14\", \"18, 22\"); } } } }
  cell (INVT) {
    pin (A) { direction : input; capacitance : 1; }
    pin (Z) { direction : output;
      timing () { related_pin : \"A\"; timing_sense : negative_unate;
        cell_rise (t22l) { values (\"20, 30\", \"40, 60\"); }
        cell_fall (t22l) { values (\"10, 16\", \"20, 32\"); }
        rise_transition (t22l) { values (\"12, 20\", \"16, 28\"); }
        fall_transition (t22l) { values (\"10, 18\", \"14, 22\"); } } } }
  cell (XOR) {
    pin (A, B) { direction : input; capacitance : 1; }
    pin (Z) { direction : output;
      timing () { related_pin : \"A B\"; timing_sense : positive_unate;
        cell_rise (scalar) { values (\"50\"); }
        cell_fall (scalar) { values (\"40\"); }
        rise_transition (scalar) { values (\"10\"); }
        fall_transition (scalar) { values (\"10\"); } }
      timing () { related_pin : \"A B\"; timing_sense : negative_unate;
        cell_rise (scalar) { values (\"45\"); }
        cell_fall (scalar) { values (\"60\"); }
        rise_transition (scalar) { values (\"11\"); }
        fall_transition (scalar) { values (\"9\"); } } } }
  cell (DFF) {
    pin (CK, D) { direction : input; capacitance : 1; }
    pin (Q) { direction : output;
      timing () { related_pin : \"CK\"; timing_type : rising_edge;
        cell_rise (scalar) { values (\"100\"); }
        cell_fall (scalar) { values (\"110\"); }
        rise_transition (scalar) { values (\"15\"); }
        fall_transition (scalar) { values (\"14\"); } } }
    pin (QN) { direction : output;
      timing () { related_pin : \"CK\"; timing_type : rising_edge;
        cell_rise (t22) { values (\"20, 40\", \"30, 60\"); }
        rise_transition (t22) { values (\"12, 16\", \"20, 28\"); } } } }
  cell (NAND2) {
    pin (A, B) { direction : input; capacitance : 1; }
    pin (Z) { direction : output;
      timing () { related_pin : \"A B\"; timing_sense : negative_unate;
        cell_rise (scalar) { values (\"12\"); }
        cell_fall (scalar) { values (\"11\"); }
        rise_transition (scalar) { values (\"8\"); }
        fall_transition (scalar) { values (\"7\"); } } } }
  cell (TIE) { pin (Z) { direction : output; } }
}
";

/// One inverter between two ports.
pub const INVERTER: &[u8] =
    b"module top (a, z); input a; output z; INV u1 (.A(a), .Z(z)); endmodule";

/// What the SDF text of the design `top` begins with, up to the delays of its wires.
pub const SDF_HEAD: &[u8] = b"(DELAYFILE
(SDFVERSION \"3.0\")
(DESIGN \"top\")
(PROGRAM \"gdc\")
(VERSION \"1\")
(DIVIDER /)
(TIMESCALE 1ps)
(CELL
(CELLTYPE \"top\")
(INSTANCE)
";
