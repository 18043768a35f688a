//! The reading of a text as a value with a sign: in a unit, up to a bound in size.
ghost use Rattle.std.specs.Prelude.{◌≡◌, ◌≤◌, ◌^◌, ℕ, List, pos, ◌≤ℤ◌, ◌<ℤ◌};
ghost use Rattle.delay_units.specs.Parts.{DecidesNumber};
ghost use Rattle.delay_units.specs.Reading.{ReadsAs};
ghost use Rattle.delay_units.specs.ShortLiterals.{HasShortFront};
ghost use Rattle.delay_units.specs.SignedAmounts.{IsSignedAmountOf, KeepsBound};
ghost use Rattle.delay_units.specs.declared.signed_amounts.SignedAmount.TheVariants.{Below, Past};

use crate::literal::read_decimal;
use crate::numbers::{Decimal, NumberFault, Unit};
use crate::reading_on::decimal_behind;
use crate::readings::scale;
use crate::short_literals::{Short, take_short, whole_reading};

/// What a text reads as in a unit, rounded half up to whole grains, up to a bound in size.
#[derive(Clone, Copy)]
pub enum SignedAmount {
    /// No number that is read: no decimal literal, or one of more than 30 significant digits, or with an exponent past 99
    /// in size.
    Unread,
    /// Less than 0, and past the bound in size.
    Below,
    /// Of the bound's size at most: so many grains.
    Within(i128),
    /// More than the bound.
    Past,
}

/// What `text` reads as in `unit`, with a bound of `most` grains in size, which is at most 10^36. Each answer comes exactly
/// where it is right.
#[inline]
#[tactic(auto, using(crate::proofs::SignedAmountLemmas::one_signed_amount))]
pub fn read_signed_amount(unit: &Unit, most: u128, text: &[u8]) -> SignedAmount
    requires { most ≤ 10 ^ 36 }
    ensures amount { IsSignedAmountOf unit.now most text.now result }
    ensures only { (other : SignedAmount) → IsSignedAmountOf unit.now most text.now other → other ≡ result }
{
    let Some((short, rest)) = take_short(text) else {
        return read_any_signed(unit, most, text);
    };
    match whole_reading(unit, &short, rest) {
        Some(grains) => up_to(most, grains),
        None => read_signed_on(unit, most, text, &short, rest),
    }
}

/// What a reading of so many grains is.
#[inline]
fn up_to(most: u128, grains: u64) -> SignedAmount
    ensures { (unit : Unit) (text : List ℕ) → ReadsAs unit text (pos grains) → IsSignedAmountOf unit most text result }
{
    if grains as u128 <= most {
        SignedAmount::Within(grains as i128)
    } else {
        SignedAmount::Past
    }
}

/// The bound, as a number with a sign.
fn limit(most: u128) -> i128
    requires { most ≤ 10 ^ 36 }
    ensures { result ≡ pos most }
{
    most as i128
}

/// The same as [`read_signed_amount`], for each literal.
fn read_any_signed(unit: &Unit, most: u128, text: &[u8]) -> SignedAmount
    requires { most ≤ 10 ^ 36 }
    ensures { IsSignedAmountOf unit.now most text.now result }
{
    signed_amount_of(unit, most, &read_decimal(text))
}

/// The same as [`read_signed_amount`], where the text begins with these digits: they are not looked at again.
#[inline(never)]
fn read_signed_on(unit: &Unit, most: u128, text: &[u8], short: &Short, rest: &[u8]) -> SignedAmount
    requires bound { most ≤ 10 ^ 36 }
    requires front { HasShortFront text.now short.now rest.now }
    ensures { IsSignedAmountOf unit.now most text.now result }
{
    signed_amount_of(unit, most, &decimal_behind(text, short, rest))
}

/// What a text reads as that is this number, or is not read for this fault.
#[tactic(auto, using(crate::proofs::SignedAmountLemmas::signed_unread))]
pub fn signed_amount_of(
    unit: &Unit,
    most: u128,
    number: &Result<Decimal, NumberFault>,
) -> SignedAmount
    requires { most ≤ 10 ^ 36 }
    ensures amount { (text : List ℕ) → DecidesNumber text number.now → IsSignedAmountOf unit.now most text result }
    ensures bound { KeepsBound most result }
{
    let Ok(number) = number else {
        return SignedAmount::Unread;
    };
    match scale(number, unit, limit(most)) {
        Some(grains) => SignedAmount::Within(grains),
        None => past_in_size(number),
    }
}

/// What a number reads as whose reading is past the bound in size.
fn past_in_size(number: &Decimal) -> SignedAmount
    ensures below { number.now.digits <ℤ pos 0 → result ≡ Below }
    ensures above { pos 0 ≤ℤ number.now.digits → result ≡ Past }
{
    if number.digits < 0 {
        SignedAmount::Below
    } else {
        SignedAmount::Past
    }
}
