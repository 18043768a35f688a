//! Elmore delays in the grains that are written.
ghost use Rattle.std.specs.Prelude.{◌≡◌, ◌<◌, ◌≤◌, ◌^◌, ℤ, pos, unsigned_abs};
ghost use Rattle.delay_units.specs.Rounding.{IsRounding};
ghost use Rattle.elmore_pass.specs.Delays.{delay_limit};

use delay_units::{Femto, half_up};

/// An Elmore delay in units of 10^-27 s, below 5.6 * 10^37, rounded to a femtosecond.
pub fn sink_femto(value: u128) -> Femto
    requires { value < delay_limit }
    ensures rounded { IsRounding (pos value) (pos (10 ^ 12)) result.0 }
    ensures only { (v : ℤ) → IsRounding (pos value) (pos (10 ^ 12)) v → v ≡ result.0 }
    ensures printed { unsigned_abs result.0 ≤ 10 ^ 27 }
{
    Femto(half_up(value as i128, 1_000_000_000_000))
}
