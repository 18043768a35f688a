//! What the files have to be.
use std::process::Abort;
use trial_files::TrialFiles;

const LIBRARY: &[u8] = b"library (L) {
  time_unit : \"1ps\";
  capacitive_load_unit (1, ff);
  lu_table_template (t22) {
    variable_1 : input_net_transition;
    variable_2 : total_output_net_capacitance;
    index_1 (\"1, 100\"); index_2 (\"1, 500001\"); }
  cell (INV) {
    pin (A) { direction : input; capacitance : 1; }
    pin (Z) { direction : output;
      timing () { related_pin : \"A\"; timing_sense : negative_unate;
        cell_rise (t22) { values (\"10, 20\", \"10, 20\"); }
        cell_fall (t22) { values (\"12, 22\", \"12, 22\"); }
        rise_transition (t22) { values (\"5, 5\", \"5, 5\"); }
        fall_transition (t22) { values (\"6, 6\", \"6, 6\"); } } } }
}
";

/// The three texts are these.
pub fn expect(rt: &impl Abort, files: &TrialFiles, netlist: &[u8], spef: &[u8]) {
    assert_eq!(rt; files.netlist.bytes(), netlist);
    assert_eq!(rt; files.library.bytes(), LIBRARY);
    assert_eq!(rt; files.spef.bytes(), spef);
}
