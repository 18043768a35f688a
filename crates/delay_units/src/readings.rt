//! Units, and the reading of a decimal in a unit as a whole number of grains.
ghost use Rattle.std.specs.Prelude.{◌≡◌, ◌↔◌, ◌+◌, ◌^◌, ◌<◌, ◌≤◌, ℤ, pos, ◌+ℤ◌, ◌*ℤ◌, ◌<ℤ◌, ◌≤ℤ◌, unsigned_abs, IsSome, IfSome, IfNone};
ghost use Rattle.delay_units.specs.Reading.{IsReading, IsRoundedPower};

use crate::numbers::{Decimal, Unit};
use crate::rounding::half_up;
use crate::tally::ten_to;

/// The unit of `number * 10^power` grains: `None` where the number is not positive, has more than seven digits,
/// or leaves an exponent past 99 in size.
pub fn unit(number: &Decimal, power: i32) -> Option<Unit>
    requires { unsigned_abs power ≤ 99 }
    ensures mantissa { IfSome result (λ u. pos u.mantissa ≡ number.now.digits) }
    ensures exponent { IfSome result (λ u. u.exponent ≡ number.now.exponent +ℤ power) }
    ensures fits { IsSome result ↔ ((pos 1 ≤ℤ number.now.digits) × (number.now.digits ≤ℤ pos 9999999)
        × (unsigned_abs (number.now.exponent +ℤ power) ≤ 99)) }
{
    let exponent = number.exponent + power as i128;
    if number.digits < 1 || number.digits > 9_999_999 || exponent < -99 || exponent > 99 {
        return None;
    }
    Some(Unit {
        mantissa: number.digits as u32,
        exponent: exponent as i32,
    })
}

/// The reading of `number` in `unit`, rounded half up to whole grains: `None` where it is past `limit` in size.
pub fn scale(number: &Decimal, unit: &Unit, limit: i128) -> Option<i128>
    requires not_negative { pos 0 ≤ℤ limit }
    requires small { limit ≤ℤ pos (10 ^ 36) }
    ensures reading { IfSome result (IsReading number.now unit.now) }
    ensures within { IfSome result (λ v. pos (unsigned_abs v) ≤ℤ limit) }
    ensures past { IfNone result ((v : ℤ) × IsReading number.now unit.now v
        × (limit <ℤ pos (unsigned_abs v))) }
    ensures all_past { IfNone result ((v : ℤ) → IsReading number.now unit.now v
        → limit <ℤ pos (unsigned_abs v)) }
    ensures only { (v : ℤ) → IsReading number.now unit.now v → IfSome result (λ w. v ≡ w) }
{
    match rounded(product_of(number, unit), power_of(number, unit)) {
        Some(value) if value <= limit && -limit <= value => Some(value),
        _ => None,
    }
}

fn product_of(number: &Decimal, unit: &Unit) -> i128
    ensures value { result ≡ number.now.digits *ℤ pos unit.now.mantissa }
    ensures small { unsigned_abs result < 10 ^ 37 }
{
    number.digits * unit.mantissa as i128
}

fn power_of(number: &Decimal, unit: &Unit) -> i128
    ensures value { result ≡ number.now.exponent +ℤ unit.now.exponent }
    ensures bound { unsigned_abs result ≤ 2 ^ 66 }
{
    number.exponent + unit.exponent as i128
}

/// `n * 10^power` rounded, or `None` where that is past 10^36 in size.
fn rounded(n: i128, power: i128) -> Option<i128>
    requires small { unsigned_abs n < 10 ^ 37 }
    requires power { unsigned_abs power ≤ 2 ^ 66 }
    ensures value { IfSome result (IsRoundedPower n power) }
    ensures past { IfNone result ((v : ℤ) × IsRoundedPower n power v × (pos (10 ^ 36) <ℤ pos (unsigned_abs v))) }
{
    if power < 0 {
        Some(divided(n, power))
    } else {
        multiplied(n, power)
    }
}

/// `n * 10^power` rounded, for a negative power.
fn divided(n: i128, power: i128) -> i128
    requires small { unsigned_abs n < 10 ^ 37 }
    requires negative { power <ℤ pos 0 }
    ensures { IsRoundedPower n power result }
{
    let k = power.unsigned_abs();
    if k > 37 {
        0
    } else {
        half_up(n, ten_to(k as usize) as i128)
    }
}

/// `n * 10^k`, or `None` where that is past 10^36 in size.
fn multiplied(n: i128, k: i128) -> Option<i128>
    requires small { unsigned_abs n < 10 ^ 37 }
    requires positive { pos 0 ≤ℤ k }
    ensures value { IfSome result (λ v. IsRoundedPower n k v) }
    ensures past { IfNone result ((v : ℤ) × IsRoundedPower n k v × (pos (10 ^ 36) <ℤ pos (unsigned_abs v))) }
{
    if n == 0 {
        return Some(0);
    }
    if k > 36 {
        return None;
    }
    n.checked_mul(ten_to(k as usize) as i128)
}
