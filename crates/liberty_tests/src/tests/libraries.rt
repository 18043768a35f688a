//! Small libraries whose cells are modelled, joined or refused.

/// Cells with models. Each shows a rule of pins or of arcs.
pub const MODELS: &[u8] = b"library (l) {
  time_unit : \"1ps\"; capacitive_load_unit (1, ff);
  cell (pins) {
    pin (A) { direction : input; capacitance : 2; }
    pin (A, B) { direction : output; capacitance : 3; }
    pin (C, B, D) { direction : input; capacitance : 3; }
    pin (E) { direction : output; direction : input; capacitance : 1; capacitance : 4; }
    pin (F) { direction : inout; capacitance : x; }
    pin (G) { direction : internal; }
    pin (H) { direction : input; capacitance : -0.0000005; }
    pin (I) { direction : input; timing () { related_pin : \"x\"; cell_rise (none) { } } }
  }
  cell (arcs) {
    pin (A, B) { direction : input; }
    pin (C) { direction : inout; }
    pin (P) { direction : output;
      timing () { related_pin : \"no_such_pin\"; timing_type : three_state_enable;
        cell_rise (scalar) { values (\"5\"); } rise_transition (scalar) { values (\"6\"); } }
      timing () { related_pin : \"no_such_pin\"; rise_transition (none) { } }
      timing () { cell_rise (scalar) { values (\"5\"); } rise_transition (scalar) { values (\"6\"); } }
    }
    pin (Q) { direction : output;
      timing () { related_pin : \" B\t\n\x0b\x0c\rA \";
        cell_rise (scalar) { values (\"5\"); } rise_transition (scalar) { values (\"6\"); } }
      timing () { related_pin : \"A A\";
        cell_rise (scalar) { values (\"5\"); } rise_transition (scalar) { values (\"6\"); } }
    }
    pin (R) { direction : output;
      timing () { related_pin : \"A\"; timing_sense : positive_unate; timing_type : falling_edge;
        cell_rise (scalar) { values (\"5\"); } rise_transition (scalar) { values (\"6\"); } }
      timing () { related_pin : \"A\"; timing_type : rising_edge;
        cell_rise (scalar) { values (\"5\"); } rise_transition (scalar) { values (\"6\"); } }
      timing () { related_pin : \"A\"; timing_sense : positive_unate; timing_type : combinational;
        cell_rise (scalar) { values (\"5\"); } rise_transition (scalar) { values (\"6\"); } }
      timing () { related_pin : \"A\"; timing_sense : negative_unate; timing_type : combinational_rise;
        cell_rise (scalar) { values (\"5\"); } rise_transition (scalar) { values (\"6\"); } }
      timing () { related_pin : \"A\"; timing_sense : non_unate; timing_type : preset;
        cell_rise (scalar) { values (\"5\"); } rise_transition (scalar) { values (\"6\"); } }
      timing () { related_pin : \"A\"; timing_type : combinational_fall;
        cell_fall (scalar) { values (\"5\"); } fall_transition (scalar) { values (\"6\"); } }
      timing () { related_pin : \"A\"; timing_type : clear;
        cell_rise (scalar) { values (\"5\"); } cell_rise (none) { }
        rise_transition (scalar) { values (\"6\"); } rise_transition (none) { } }
    }
    pin (S) { direction : output;
      timing () { related_pin : \"A C Q\"; timing_sense : positive_unate;
        cell_rise (scalar) { values (\"5\"); } rise_transition (scalar) { values (\"6\"); } }
    }
    pin (T, S) { direction : output;
      timing () { related_pin : \"B A\"; timing_sense : negative_unate;
        cell_rise (scalar) { values (\"5\"); } rise_transition (scalar) { values (\"6\"); }
        cell_fall (scalar) { values (\"7\"); } fall_transition (scalar) { values (\"8\"); } }
    }
    pin (U) { direction : output;
      timing () { related_pin : \"V\";
        cell_rise (scalar) { values (\"5\"); } rise_transition (scalar) { values (\"6\"); } }
    }
    pin (V) { direction : input; }
  }
  cell (twice) { pin (A) { direction : input; } }
  cell (twice) { pin (B) { } }
}
";

/// A library with a default, in picofarads, and no unit of time, where a nanosecond counts.
pub const DEFAULTS: &[u8] = b"library (l) {
  capacitive_load_unit (1.5, PF); default_input_pin_cap : 7;
  cell (c) {
    pin (A) { direction : input; capacitance : 1; rise_capacitance : 5; fall_capacitance : 6; }
    pin (B) { direction : input; rise_capacitance : 5; fall_capacitance : 6; }
    pin (C) { direction : input; rise_capacitance : 6.5; fall_capacitance : -6; }
    pin (D) { direction : input; fall_capacitance : 3; }
    pin (E) { direction : input; rise_capacitance : 2; }
    pin (F) { direction : input; }
  }
}
";

/// Cells that have no model, each named for what is wrong first.
pub const FAULTY: &[u8] = b"library (l) {
  time_unit : \"1ps\"; capacitive_load_unit (1, ff);
  lu_table_template (t) { variable_1 : time; }
  lu_table_template (even) { variable_1 : input_net_transition; index_1 (\"1, 1\"); }
  cell (no_way) { pin (A) { } pin (B) { direction : input; capacitance : x; } }
  cell (way) { pin (A) { direction : in; } }
  cell (way_behind) {
    pin (Z) { direction : output; timing () { related_pin : \"x\"; cell_rise (none) { } } } pin (A) { } }
  cell (word) { pin (A) { direction : input; capacitance : x; } pin (B) { } }
  cell (below) { pin (A) { direction : input; capacitance : -1; } }
  cell (past) { pin (A) { direction : input; capacitance : 1000000.000001; } }
  cell (edge) { pin (A) { direction : input; rise_capacitance : 1; fall_capacitance : 1e100; } }
  cell (related) { pin (Z) { direction : output; timing () { related_pin : \"x\"; cell_rise (none) { } } } }
  cell (template) { pin (Z) { direction : output; timing () { related_pin : \"Z\";
    cell_fall (scalar) { values (\"5\"); } cell_rise (none) { } } } }
  cell (no_template) { pin (Z) { direction : output; timing () { related_pin : \"Z\"; cell_rise () { } } } }
  cell (variable) { pin (Z) { direction : output; timing () { related_pin : \"Z\"; cell_rise (t) { } } } }
  cell (axis) { pin (Z) { direction : output; timing () { related_pin : \"Z\"; cell_rise (even) { } } } }
  cell (count) { pin (Z) { direction : output; timing () { related_pin : \"Z\";
    cell_rise (scalar) { values (\"5, 6\"); } } } }
  cell (value) { pin (Z) { direction : output; timing () { related_pin : \"Z\";
    cell_rise (scalar) { values (\"x\"); } } } }
  cell (alone) { pin (Z) { direction : output; timing () { related_pin : \"Z\";
    cell_rise (scalar) { values (\"5\"); } } timing () { related_pin : \"x\"; cell_rise (none) { } } } }
  cell (negative) { pin (Z) { direction : output; timing () { related_pin : \"Z\";
    cell_rise (scalar) { values (\"-5\"); } rise_transition (scalar) { values (\"-1\"); } cell_fall (none) { } } } }
}
";

/// Cells whose shapes are compared: an inverter, the same with another sense, with twice the capacitance, without its arc, with a
/// further pin, and with that of two directions and no arc.
pub const SHAPES: &[u8] = b"library (l) {
  time_unit : \"1ps\"; capacitive_load_unit (1, ff);
  cell (inverter) { pin (A) { direction : input; capacitance : 1; } pin (Z) { direction : output;
    timing () { related_pin : \"A\"; timing_sense : negative_unate;
      cell_rise (scalar) { values (\"10\"); } rise_transition (scalar) { values (\"10\"); } } } }
  cell (buffer) { pin (A) { direction : input; capacitance : 1; } pin (Z) { direction : output;
    timing () { related_pin : \"A\"; timing_sense : positive_unate;
      cell_rise (scalar) { values (\"10\"); } rise_transition (scalar) { values (\"10\"); } } } }
  cell (heavy) { pin (A) { direction : input; capacitance : 2; } pin (Z) { direction : output;
    timing () { related_pin : \"A\"; timing_sense : negative_unate;
      cell_rise (scalar) { values (\"10\"); } rise_transition (scalar) { values (\"10\"); } } } }
  cell (no_arc) { pin (A) { direction : input; capacitance : 1; } pin (Z) { direction : output; } }
  cell (three_pins) { pin (A) { direction : input; capacitance : 1; } pin (Z) { direction : output;
    timing () { related_pin : \"A\"; timing_sense : negative_unate;
      cell_rise (scalar) { values (\"10\"); } rise_transition (scalar) { values (\"10\"); } } }
    pin (B) { direction : input; } }
  cell (input) { pin (A) { direction : input; capacitance : 1; } pin (Z) { direction : output; }
    pin (B) { direction : input; } }
  cell (inout) { pin (A) { direction : input; capacitance : 1; } pin (Z) { direction : output; }
    pin (B) { direction : inout; } }
}
";
