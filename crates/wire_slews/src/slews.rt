//! The slew behind a wire.
ghost use Rattle.std.specs.Prelude.{◌≡◌, ℕ, ◌*◌, ◌^◌, ◌<◌, ◌≤◌, ℤ, pos, ◌<ℤ◌, ◌≤ℤ◌, IfSome, IfNone};
ghost use Rattle.delay_units.specs.Rounding.{IsRounding};
ghost use Rattle.wire_slews.specs.WireSlews.{IsWireSlew, most_slew};

use crate::roots::root;
use corner_set::WireSlew;
use delay_units::{Atto, half_up};

/// The slew of a step behind one resistance and one capacitance, between 10 and 90 percent of its height, in thousandths of its
/// Elmore sum: ln 9.
const WIRE_THOUSANDTHS: u128 = 2197;

/// A thousandth of an Elmore sum, which is in 10^-27 s, has so many parts of an attosecond.
const PARTS: i128 = 1_000_000_000_000;

/// The slew of a wire with a greater Elmore sum is past a microsecond by itself.
const MOST_ELMORE: u128 = 1_000_000_000_000_000_000_000;

// A wire's own slew, of an Elmore sum that is not too large.
fn own_slew(elmore: u128) -> u128
    requires { elmore ≤ 10 ^ 21 }
    ensures rounded { IsRounding (pos (2197 * elmore)) (pos (10 ^ 12)) (pos result) }
    ensures only { (own : ℕ) → IsRounding (pos (2197 * elmore)) (pos (10 ^ 12)) (pos own) → own ≡ result }
    ensures small { result ≤ 22 * 10 ^ 11 }
{
    half_up((WIRE_THOUSANDTHS * elmore) as i128, PARTS) as u128
}

/// The slew behind a wire that joins its own (`WireSlew::Rss`), of the slew before it, from 0 to 10^12 attoseconds, and of the wire's
/// Elmore sum, in 10^-27 s. Nothing where it is past 10^12 attoseconds.
pub fn wire_slew(slew: Atto, elmore: u128) -> Option<Atto>
    requires not_negative { pos 0 ≤ℤ slew.0 }
    requires small { slew.0 ≤ℤ pos most_slew }
    requires elmore { elmore < 56 * 10 ^ 36 }
    ensures some { IfSome result (λ behind. IsWireSlew WireSlew.Rss slew.0 elmore behind.0) }
    ensures within { IfSome result (λ behind. behind.0 ≤ℤ pos most_slew) }
    ensures none { IfNone result ((behind : ℤ) → IsWireSlew WireSlew.Rss slew.0 elmore behind → pos most_slew <ℤ behind) }
{
    if elmore > MOST_ELMORE {
        return None;
    }
    let own = own_slew(elmore);
    let slew = slew.0 as u128;
    let behind = root(slew * slew + own * own);
    if behind > Atto::MOST as u128 {
        return None;
    }
    Some(Atto(behind as i64))
}
