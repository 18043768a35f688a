//! The law of wire slews.
ghost use Rattle.wire_slews.specs.WireSlews.{OneWireSlew};

use delay_units::one_rounding;

/// The law of wire slews, which its contract states: behind a wire there is one slew, and no second. It does nothing when it is called.
pub fn one_wire_slew()
    ensures law { OneWireSlew }
{
    one_rounding();
}
