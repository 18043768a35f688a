//! The library.
ghost use Rattle.std.specs.Prelude.{◌≡◌, IfOk};
ghost use Rattle.trial_files.specs.TrialLibrary as texts;

use edge_io::{OutOfMemory, Text};
use std::alloc::Global;

/// The library of both shapes.
#[tactic(auto, unfolding(crate::specs::TrialLibrary::trial_library))]
pub(crate) fn trial_library(alloc: Global) -> Result<Text, OutOfMemory>
    ensures { IfOk result (λ text. text ≡ texts.trial_library) }
{
    Text::from_bytes(
        alloc,
        b"library (L) {
  time_unit : \"1ps\";
  capacitive_load_unit (1, ff);
  lu_table_template (t22) {
    variable_1 : input_net_transition;
    variable_2 : total_output_net_capacitance;
    index_1 (\"1, 100\"); index_2 (\"1, 500001\"); }
  cell (INV) {
    pin (A) { direction : input; capacitance : 1; }
    pin (Z) { direction : output;
      timing () { related_pin : \"A\"; timing_sense : negative_unate;
        cell_rise (t22) { values (\"10, 20\", \"10, 20\"); }
        cell_fall (t22) { values (\"12, 22\", \"12, 22\"); }
        rise_transition (t22) { values (\"5, 5\", \"5, 5\"); }
        fall_transition (t22) { values (\"6, 6\", \"6, 6\"); } } } }
}
",
    )
}
