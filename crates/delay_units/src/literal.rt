//! Decimal literals, read exactly.
ghost use Rattle.std.specs.Prelude.{◌≡◌, ℕ, ◌^◌, ◌<◌, ◌≤◌, List, [], length, IfOk, IfErr, IfSome, IfNone, MatchOption, ◌∷◌, unsigned_abs};
ghost use Rattle.delay_units.specs.Literal.{Literal, Spells, IsNumber, IsFaultOf, IsAnswerTo};
ghost use Rattle.delay_units.specs.LiteralFronts.{IsLiteralFront, HasNoLiteralFront};
ghost use Rattle.delay_units.specs.Parts.{SplitsSign, SplitsDigits, SplitsMantissa, SplitsSize, SplitsExponent, DecidesNumber, IsPowerOf, StopsIn, DecidesDecimal, signed_by, NotFirst, NoMarkFirst, BeginsWithMark};

use crate::numbers::{Decimal, NumberFault};
use crate::tally::Tally;

/// Reads a decimal literal: an optional sign, digits with at most one point and at least one digit, and optionally `e`
/// or `E` with an optional sign and at least one digit. The number has no trailing zero among its digits, and is 0
/// with the exponent 0 for zero. A text that is no literal is refused first, then more than 30 significant digits, then
/// an exponent past 99 in size.
pub fn read_decimal(text: &[u8]) -> Result<Decimal, NumberFault>
    ensures number { IfOk result (IsNumber text.now) }
    ensures fault { IfErr result (IsFaultOf text.now) }
    ensures only { (l : Literal) → Spells text.now l → IsAnswerTo l result }
{
    let (negative, unsigned) = split_sign(text);
    let (tally, places, rest) = read_mantissa(unsigned);
    if tally.digits == 0 {
        return Err(NumberFault::NotANumber(text.len() - rest.len()));
    }
    match read_exponent(rest) {
        Ok(power) => decimal_of(negative, &tally, places, &power),
        Err(left) => Err(NumberFault::NotANumber(text.len() - left)),
    }
}

/// What the literal in front of a text is read as, as [`read_decimal`] reads it alone, and the text behind it. It is the longest
/// front that is a literal: nothing where no front is one.
pub fn read_leading_decimal(text: &[u8]) -> Option<(Result<Decimal, NumberFault>, &[u8])>
    ensures some { IfSome result (λ read. (front : List ℕ) × IsLiteralFront text.now front read.1.now × DecidesNumber front read.0) }
    ensures none { IfNone result (HasNoLiteralFront text.now) }
{
    let (negative, unsigned) = split_sign(text);
    let (tally, places, rest) = read_mantissa(unsigned);
    if tally.digits == 0 {
        return None;
    }
    let (power, rest) = leading_exponent(rest);
    Some((decimal_of(negative, &tally, places, &power), rest))
}

/// Whether a minus is in front of a text, and the text behind its sign, which may be missing.
#[inline]
pub fn split_sign(text: &[u8]) -> (bool, &[u8])
    ensures { SplitsSign text.now result.0 result.1.now }
{
    match text {
        [b'+', rest @ ..] => (false, rest),
        [b'-', rest @ ..] => (true, rest),
        _ => (false, text),
    }
}

/// The digits before the exponent, how many of them stand behind the point, and the rest of the text.
fn read_mantissa(text: &[u8]) -> (Tally, usize, &[u8])
    ensures { SplitsMantissa text.now result.0 result.1 result.2.now }
{
    let mut whole = Tally::new();
    let rest = whole.take_digits(text);
    mantissa_from(whole, rest)
}

/// The same where the digits in front of the point are taken.
#[inline]
pub fn mantissa_from(whole: Tally, rest: &[u8]) -> (Tally, usize, &[u8])
    requires { (text : List ℕ) × SplitsDigits [] text whole rest.now × (length text < 2 ^ 64) }
    ensures { (text : List ℕ) → SplitsDigits [] text whole rest.now → SplitsMantissa text result.0 result.1 result.2.now }
{
    match strip(rest, b'.') {
        Some(fraction) => {
            let mut tally = whole;
            let left = tally.take_digits(fraction);
            (tally, tally.digits - whole.digits, left)
        }
        None => (whole, 0, rest),
    }
}

/// The text behind its first byte, where that is `byte`.
#[inline]
pub fn strip(text: &[u8], byte: u8) -> Option<&[u8]>
    ensures { MatchOption result (NotFirst byte text.now) (λ rest. text.now ≡ byte ∷ rest.now) }
{
    match text {
        [first, rest @ ..] if *first == byte => Some(rest),
        _ => None,
    }
}

/// An exponent: its sign, and its size where that is at most 99, else a number past it.
#[derive(Clone, Copy)]
pub struct Power {
    pub negative: bool,
    pub size: u32,
}

/// The exponent that is the whole text, or the length of the part that no exponent goes on with.
pub fn read_exponent(text: &[u8]) -> Result<Power, usize>
    ensures ok { IfOk result (IsPowerOf text.now) }
    ensures stops { IfErr result (StopsIn text.now) }
{
    if text.is_empty() {
        return Ok(Power {
            negative: false,
            size: 0,
        });
    }
    let Some(signed) = strip_mark(text) else {
        return Err(text.len());
    };
    let (negative, digits) = split_sign(signed);
    let (size, rest) = read_size(digits);
    if digits.is_empty() {
        return Err(rest.len());
    }
    if !rest.is_empty() {
        return Err(rest.len());
    }
    Ok(Power { negative, size })
}

/// The exponent in front of a text, which is 0 where none is there, and the text behind it. Most numbers have none.
#[inline(never)]
pub fn leading_exponent(text: &[u8]) -> (Power, &[u8])
    ensures { SplitsExponent text.now result.0 result.1.now }
{
    let none = Power {
        negative: false,
        size: 0,
    };
    let Some(signed) = strip_mark(text) else {
        return (none, text);
    };
    let (negative, digits) = split_sign(signed);
    let (size, rest) = read_size(digits);
    if rest.len() == digits.len() {
        return (none, text);
    }
    (Power { negative, size }, rest)
}

/// The text behind the mark of an exponent, if it begins with one.
#[inline]
pub fn strip_mark(text: &[u8]) -> Option<&[u8]>
    ensures { MatchOption result (NoMarkFirst text.now) (λ rest. BeginsWithMark text.now rest.now) }
{
    match strip(text, b'e') {
        Some(rest) => Some(rest),
        None => strip(text, b'E'),
    }
}

/// The number that the digits at the front write, or one past 99 where theirs is, and the rest of the text.
fn read_size(text: &[u8]) -> (u32, &[u8])
    ensures { SplitsSize text.now result.0 result.1.now }
{
    let mut size = 0;
    let mut rest = text;
    while let [first, after @ ..] = rest {
        if !first.is_ascii_digit() {
            break;
        }
        if size <= 99 {
            size = size * 10 + (*first - b'0') as u32;
        }
        rest = after;
    }
    (size, rest)
}

/// The value of a literal with these digits and this exponent, if they fit.
pub fn decimal_of(
    negative: bool,
    tally: &Tally,
    places: usize,
    power: &Power,
) -> Result<Decimal, NumberFault>
    requires few { tally.now.significant ≤ 30 → tally.now.number < 10 ^ 30 }
    ensures { DecidesDecimal negative tally.now places power.now result }
{
    if tally.significant > Tally::MOST {
        return Err(NumberFault::TooManyDigits);
    }
    if power.size > 99 {
        return Err(NumberFault::ExponentTooLarge);
    }
    if tally.significant == 0 {
        return Ok(Decimal {
            digits: 0,
            exponent: 0,
        });
    }
    let written = with_sign(power.negative, power.size as u128);
    Ok(Decimal {
        digits: with_sign(negative, tally.number),
        exponent: written - places as i128 + tally.zeros as i128,
    })
}

fn with_sign(negative: bool, size: u128) -> i128
    requires { size < 10 ^ 30 }
    ensures value { result ≡ signed_by negative size }
    ensures size { unsigned_abs result ≡ size }
{
    if negative {
        -(size as i128)
    } else {
        size as i128
    }
}
