//! Laws of the definitions.
ghost use Rattle.nldm_lookup.specs.Interpolant.{OneLookup};

use delay_units::one_rounding;

/// A lookup has at most one answer, a value or why there is none: where a quantity is a point of an axis, its neighbours on either
/// side give the same value. It does nothing when it is called.
pub fn one_lookup()
    ensures law { OneLookup }
{
    one_rounding();
}
