//! The law of SPEF files.
ghost use Rattle.corner_set.specs.declared.pick.Pick.{Pick};
ghost use Rattle.spef_nets.specs.Drafts.{corners_of};
ghost use Rattle.wire_phases.specs.SpefPhases.{OneReading};

use corner_set::CornerSet;

/// The law of SPEF files, which its contract states: the bytes of a file have one answer at each set of corners. They say nets, all of
/// whose sections are without a fault, or they have one refusal. It does nothing when it is called.
pub fn one_reading<C: CornerSet>()
    ensures law { (pick : Pick) → OneReading (corners_of C.COUNT C.number_of C.member_of pick) }
{}
