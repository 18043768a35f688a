//! Laws of look-ups and slews.
ghost use Rattle.slew_order.specs.Lookups.{HalfUp, LookupFunction};
ghost use Rattle.slew_order.specs.SlewLaws.{DeepSlews, AgreeingCorners, NoPinStuck, PinsAgree, WorstAtPins, LiveDelays, OneSlews, SlewsOrEnd, OneSlewEnd};
ghost use Rattle.slew_order.specs.WireBehind.{WireFunction};

/// The law of lookups, which its contract states: in a whole table a lookup answers what the function of lookups gives, and nothing
/// else. It does nothing when it is called.
pub fn lookups_are_a_function()
    ensures law { LookupFunction }
{}

/// The law of rounding, which its contract states: half up is the rounding to the nearest integer, and to the greater of two that are
/// as near. It does nothing when it is called.
pub fn half_up_is_rounding()
    ensures law { HalfUp }
{}

/// The law of wires, which its contract states: the function of wires gives the slew that the relation of wires has, where that is a
/// microsecond at most, and nothing else. It does nothing when it is called.
pub fn wires_are_a_function()
    ensures law { WireFunction }
{}

/// The law of settled depth, which its contract states: where a design has no cycle, the state of a net at each depth past the number
/// of nets is the same. It does nothing when it is called.
pub fn deep_slews_are_the_same()
    ensures law { DeepSlews }
{}

/// The law of corners, which its contract states: at two corners a net is stuck at one of them, or known at both, or absent at both. It
/// does nothing when it is called.
pub fn corners_agree()
    ensures law { AgreeingCorners }
{}

/// The laws of pins, which its contract states: where a design has slews, and each of its cells has one shape at all corners, no pin is
/// stuck, and a pin that is known at an edge at one corner is known there at each. It does nothing when it is called.
pub fn pins_agree()
    ensures free { NoPinStuck }
    ensures agree { PinsAgree }
{}

/// The law of worst input slews, which its contract states: by the number of an arc, as states of nets are settled, it is what it is by
/// the states of the arc's related pin. It does nothing when it is called.
pub fn worst_at_pins()
    ensures law { WorstAtPins }
{}

/// The law of live paths, which its contract states: where a design has slews, each arc with a worst input slew at an edge has a delay
/// there. It does nothing when it is called.
pub fn live_arcs_have_delays()
    ensures law { LiveDelays }
{}

/// The law of one answer, which its contract states: the slews of a design are one; a design that has slews is refused for want of memory
/// alone; and a design is refused for one reason, but for which cycle is named. It does nothing when it is called.
pub fn slews_are_one()
    ensures slews { OneSlews }
    ensures either { SlewsOrEnd }
    ensures ends { OneSlewEnd }
{}
