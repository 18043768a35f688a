//! The quotient of weighed values, rounded once.
ghost use Rattle.std.specs.Prelude.{◌≡◌, pos, ◌*◌, ◌%◌, ◌^◌, ◌≤◌, unsigned_abs};
ghost use Rattle.delay_units.specs.Rounding.{IsRounding};

use delay_units::half_up;

// The largest number that is near a quotient, so that products with it fit.
const MOST_NEAR: u64 = 10_000_000_000;

// As many numbers as 64 bits write.
const WORDS: u128 = 1 << 64;

// The lowest 64 bits.
#[inline]
fn low_word(n: u128) -> u64
    ensures { result ≡ n % 18446744073709551616 }
{
    (n % WORDS) as u64
}

// A number near a quotient, as a rule: that of the upper 64 bits of the dividend, by as many bits of the divisor less. A division of
// 64 bits takes half the time of one of 128 bits.
#[inline]
fn near_quotient(n: u128, d: u128) -> u64
    ensures { result ≤ 10 ^ 10 }
{
    let shift = 64 - low_word(n >> 64).leading_zeros();
    let divisor = low_word(d >> shift);
    if divisor == 0 {
        return 0;
    }
    (low_word(n >> shift) / divisor).min(MOST_NEAR)
}

// A multiple of a divisor.
#[inline]
fn multiple(near: u64, d: u128) -> u128
    requires near { near ≤ 10 ^ 10 }
    requires divisor { d ≤ 10 ^ 27 }
    ensures value { result ≡ near * d }
    ensures small { result ≤ 10 ^ 37 }
{
    near as u128 * d
}

/// `n / d` rounded to the nearest integer, and to the greater of two that are as near.
#[inline]
pub(crate) fn rounded(n: i128, d: u128) -> i128
    requires some { 1 ≤ d }
    requires divisor { d ≤ 10 ^ 27 }
    requires small { unsigned_abs n ≤ 10 ^ 37 }
    ensures { IsRounding n (pos d) result }
{
    let up = n + (d / 2) as i128;
    if up < 0 {
        return half_up(n, d as i128);
    }
    let near = near_quotient(up as u128, d);
    let rest = 2 * (n - multiple(near, d) as i128) + d as i128;
    if 0 <= rest && rest < 2 * d as i128 {
        return near as i128;
    }
    half_up(n, d as i128)
}
