//! Reads short literals: a few digits with at most one point, as most values are written; and their readings in a unit.
ghost use Rattle.std.specs.Prelude.{◌≡◌, ◌+◌, ◌-◌, ◌^◌, ◌<◌, ◌≤◌, ◌++◌, ℕ, List, IsTrue, length, pos, IfSome};
ghost use Rattle.delay_units.specs.LiteralFronts.{IsLiteralFront};
ghost use Rattle.delay_units.specs.ShortLiterals.{TakesDigits, IsShort, HasShortFront, EndsPlainly};
ghost use Rattle.delay_units.specs.Reading.{ReadsAs};

use crate::literal::strip;
use crate::numbers::Unit;

/// The digits of a literal as one number, whether a point is among them, and how many of them stand behind it.
#[derive(Clone, Copy)]
pub struct Short {
    pub digits: u64,
    pub pointed: bool,
    pub places: u32,
}

/// The number that the digits at the front write behind those of `before`, and the rest of the text.
#[inline]
fn take_digits(before: u64, text: &[u8]) -> (u64, &[u8])
    requires few { length text.now ≤ 18 }
    requires small { before < 10 ^ (18 - length text.now) }
    ensures { TakesDigits before text.now result.0 result.1.now }
{
    let mut number = before;
    let mut rest = text;
    while let [first, after @ ..] = rest {
        if !first.is_ascii_digit() {
            break;
        }
        number = number * 10 + (*first - b'0') as u64;
        rest = after;
    }
    (number, rest)
}

/// The digits in front of a text of at most 18 bytes, with at most one point among them, and the text behind them: nothing where there
/// is no digit.
#[inline]
fn short_within(text: &[u8]) -> Option<(Short, &[u8])>
    requires few { length text.now ≤ 18 }
    ensures { IfSome result (λ taken. HasShortFront text.now taken.0 taken.1.now) }
{
    let (whole, rest) = take_digits(0, text);
    match strip(rest, b'.') {
        Some(fraction) => {
            let (digits, left) = take_digits(whole, fraction);
            if left.len() + 1 == text.len() {
                return None;
            }
            let places = (fraction.len() - left.len()) as u32;
            let short = Short {
                digits,
                pointed: true,
                places,
            };
            Some((short, left))
        }
        None => {
            if rest.len() == text.len() {
                return None;
            }
            let short = Short {
                digits: whole,
                pointed: false,
                places: 0,
            };
            Some((short, rest))
        }
    }
}

/// Whether no literal goes on with the text: it is empty, or begins with no digit, no point and no mark of an exponent.
#[inline]
fn goes_on_with_none(text: &[u8]) -> bool
    ensures { IsTrue result → EndsPlainly text.now }
{
    match text {
        [] => true,
        [first, ..] => {
            !(first.is_ascii_digit() || *first == b'.' || *first == b'e' || *first == b'E')
        }
    }
}

/// The digits in front of a text, with at most one point among them, as far as they are within 18 bytes, and the text behind them:
/// nothing where there is no digit.
#[inline]
pub fn take_short(text: &[u8]) -> Option<(Short, &[u8])>
    ensures { IfSome result (λ taken. HasShortFront text.now taken.0 taken.1.now) }
{
    let (window, _) = text.split_at(text.len().min(18));
    let (short, left) = short_within(window)?;
    let (_, rest) = text.split_at(window.len() - left.len());
    Some((short, rest))
}

/// A unit's exponent, if it is not below 0.
#[inline]
fn exponent_of(unit: &Unit) -> Option<u32>
    ensures { IfSome result (λ exponent. unit.now.exponent ≡ pos exponent) }
{
    if unit.exponent < 0 {
        None
    } else {
        Some(unit.exponent as u32)
    }
}

/// By which power of ten digits count in the unit of which so many stand behind the point, if they leave no fraction.
#[inline]
fn power_behind(unit: &Unit, places: u32) -> Option<u32>
    ensures exact { IfSome result (λ power. unit.now.exponent ≡ pos (places + power)) }
    ensures small { IfSome result (λ power. power ≤ 18) }
{
    let power = exponent_of(unit)?.checked_sub(places)?;
    if power > 18 { None } else { Some(power) }
}

/// The powers of ten that 64 bits hold, up to the most that a literal needs.
const POWERS: [u64; 19] = [
    1,
    10,
    100,
    1_000,
    10_000,
    100_000,
    1_000_000,
    10_000_000,
    100_000_000,
    1_000_000_000,
    10_000_000_000,
    100_000_000_000,
    1_000_000_000_000,
    10_000_000_000_000,
    100_000_000_000_000,
    1_000_000_000_000_000,
    10_000_000_000_000_000,
    100_000_000_000_000_000,
    1_000_000_000_000_000_000,
];

/// 10 to a power.
#[inline]
fn power_of_ten(power: u32) -> u64
    requires { power ≤ 18 }
    ensures { result ≡ 10 ^ power }
{
    POWERS[power as usize]
}

/// The reading of a short literal, where it needs no rounding.
#[inline]
fn exactly(unit: &Unit, short: &Short) -> Option<u64>
    ensures { (text : List ℕ) → IsShort text short.now → IfSome result (λ grains. ReadsAs unit.now text (pos grains)) }
{
    let power = power_behind(unit, short.places)?;
    let product = short.digits.checked_mul(unit.mantissa as u64)?;
    product.checked_mul(power_of_ten(power))
}

/// The reading of the literal in front of a text, where these digits are all of it and need no rounding: nothing for other literals. Most
/// values are such, and this takes a third of the time.
#[inline]
pub fn leading_reading(unit: &Unit, short: &Short, rest: &[u8]) -> Option<u64>
    ensures { (text : List ℕ) → HasShortFront text short.now rest.now
        → IfSome result (λ grains. (front : List ℕ) × IsLiteralFront text front rest.now × ReadsAs unit.now front (pos grains)) }
{
    if goes_on_with_none(rest) {
        exactly(unit, short)
    } else {
        None
    }
}

/// The same where that literal is the whole text.
#[inline]
pub fn whole_reading(unit: &Unit, short: &Short, rest: &[u8]) -> Option<u64>
    ensures { (text : List ℕ) → HasShortFront text short.now rest.now → IfSome result (λ grains. ReadsAs unit.now text (pos grains)) }
{
    if rest.is_empty() {
        exactly(unit, short)
    } else {
        None
    }
}
