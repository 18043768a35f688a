//! The laws of the verdict, and of what the program writes.
ghost use Rattle.gdc_run.specs.OneVerdict.{OneVerdict};
ghost use Rattle.gdc_run.specs.ReadBack.{IsAlwaysReadable};

use sdf_read_back::{nodes_settle, read_back, settled_read_back};

/// The law of reading back, which its contract states: where the verdict gives rows to be written as SDF, of `wires` and no name of them
/// begins with `//`, or of `calc` and fit for it, the SDF grammar relates the text that is written to
/// the rows that are read back, and to no others. It does nothing when it is called.
pub fn always_readable()
    ensures law { IsAlwaysReadable }
{
    nodes_settle();
    settled_read_back();
    read_back();
}

/// The law of verdicts, which its contract states: on any words, and on files that are told, there is one verdict. Three things are left
/// free. A net whose resistors close a loop may be refused by any resistor of it, and a design by any of its modules that contain
/// themselves, or by any loop of its arcs.
/// That the phases come to the reading of a file, where a fault of the outside may come or not, stands beside the verdict. It does
/// nothing when it is called.
#[tactic(auto, using(crate::proofs::OneVerdict::one_verdict_lem))]
pub fn one_verdict()
    ensures law { OneVerdict }
{}
