//! Exact decimal numbers and units.
ghost use Rattle.std.specs.Prelude.{◌^◌, ◌<◌, ◌≤◌, unsigned_abs};

use thiserror::Error;

/// The number `digits * 10^exponent`.
#[derive(Clone, Copy)]
pub struct Decimal {
    /// Below 10^30 in size.
    pub digits: i128,
    /// At most 2^65 in size.
    pub exponent: i128,
    pub ghost digits_fit: { unsigned_abs digits < 10 ^ 30 },
    pub ghost exponent_fits: { unsigned_abs exponent ≤ 2 ^ 65 },
}

/// A unit of `mantissa * 10^exponent` grains.
#[derive(Clone, Copy)]
pub struct Unit {
    /// From 1 to 9,999,999.
    pub mantissa: u32,
    /// From -99 to 99.
    pub exponent: i32,
    pub ghost positive: { 1 ≤ mantissa },
    pub ghost seven_digits: { mantissa ≤ 9999999 },
    pub ghost exponent_fits: { unsigned_abs exponent ≤ 99 },
}

/// Why a text is not read as a number.
#[derive(Clone, Copy, Debug, Error)]
pub enum NumberFault {
    /// No decimal literal: the length of the longest front that begins one.
    #[error("no number: {0} bytes begin one")]
    NotANumber(usize),
    /// More than 30 significant digits, which are those without leading and trailing zeros.
    #[error("a number of more than 30 significant digits")]
    TooManyDigits,
    /// An exponent past 99 in size.
    #[error("an exponent past 99")]
    ExponentTooLarge,
}
