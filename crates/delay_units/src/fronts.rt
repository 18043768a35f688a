//! The literal in front of a text, and whether a text is one.
ghost use Rattle.std.specs.Prelude.{◌≡◌, ◌↔◌, IsTrue, List, ℕ, IfSome, IfNone};
ghost use Rattle.delay_units.specs.Literal.{IsLiteral};
ghost use Rattle.delay_units.specs.LiteralFronts.{IsLiteralFront, HasNoLiteralFront};
ghost use Rattle.delay_units.specs.Parts.{DropsDigits, HasMantissa, HasNoMantissa, SplitsExponent};
ghost use Rattle.delay_units.specs.declared.literal.Power.{Power};
ghost use Rattle.delay_units.specs.Places.{is_literal};

use crate::literal::{leading_exponent, split_sign, strip, strip_mark};

/// The text behind the digits at its front.
#[inline]
fn behind_digits(text: &[u8]) -> &[u8]
    ensures { DropsDigits text.now result.now }
{
    let mut count = 0;
    while count < text.len() {
        if !text[count].is_ascii_digit() {
            return text.split_at(count).1;
        }
        count += 1;
    }
    text.split_at(count).1
}

/// The text behind the digits at its front, with at most one point among them: nothing where there is no digit.
#[inline]
fn behind_mantissa(text: &[u8]) -> Option<&[u8]>
    ensures some { IfSome result (λ rest. HasMantissa text.now rest.now) }
    ensures none { IfNone result (HasNoMantissa text.now) }
{
    let rest = behind_digits(text);
    match strip(rest, b'.') {
        Some(fraction) => {
            let left = behind_digits(fraction);
            if left.len() + 1 == text.len() {
                None
            } else {
                Some(left)
            }
        }
        None => {
            if rest.len() == text.len() {
                None
            } else {
                Some(rest)
            }
        }
    }
}

/// The text behind the exponent at its front, which most numbers have not.
#[inline]
fn behind_exponent(text: &[u8]) -> &[u8]
    ensures { (power : Power) × SplitsExponent text.now power result.now }
{
    match strip_mark(text) {
        Some(_) => leading_exponent(text).1,
        None => text,
    }
}

/// The text behind the longest front of it that is a decimal literal: nothing where no front is one.
#[inline]
pub fn behind_literal(text: &[u8]) -> Option<&[u8]>
    ensures some { IfSome result (λ rest. (front : List ℕ) × IsLiteralFront text.now front rest.now) }
    ensures none { IfNone result (HasNoLiteralFront text.now) }
{
    let (_, unsigned) = split_sign(text);
    match behind_mantissa(unsigned) {
        Some(rest) => Some(behind_exponent(rest)),
        None => None,
    }
}

/// Whether a text is a decimal literal: an optional sign, digits with at most one point and at least one digit, and
/// optionally `e` or `E` with an optional sign and at least one digit.
#[inline]
pub fn is_literal(text: &[u8]) -> bool
    ensures value { result ≡ is_literal text.now }
    ensures shape { IsTrue result ↔ IsLiteral text.now }
{
    match behind_literal(text) {
        Some(rest) => rest.is_empty(),
        None => false,
    }
}
