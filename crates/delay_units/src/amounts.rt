//! The reading of a text as a size: in a unit, from 0 to a bound.
ghost use Rattle.std.specs.Prelude.{◌≡◌, ℕ, ◌≤◌, ◌<◌, ◌^◌, List, pos, unsigned_abs, IfSome, IfNone};
ghost use Rattle.delay_units.specs.Reading.{ReadsAs};
ghost use Rattle.delay_units.specs.LiteralFronts.{IsLiteralFront, HasNoLiteralFront};
ghost use Rattle.delay_units.specs.Parts.{DecidesNumber};
ghost use Rattle.delay_units.specs.Amounts.{IsAmountOf};
ghost use Rattle.delay_units.specs.ShortLiterals.{HasShortFront};

use crate::literal::{read_decimal, read_leading_decimal};
use crate::numbers::{Decimal, NumberFault, Unit};
use crate::reading_on::{decimal_behind, leading_decimal_behind};
use crate::short_literals::{Short, leading_reading, take_short, whole_reading};
use crate::signed_amounts::{SignedAmount, signed_amount_of};

/// What a text reads as in a unit, rounded half up to whole grains.
#[derive(Clone, Copy)]
pub enum Amount {
    /// No number that is read: no decimal literal, or one of more than 30 significant digits, or with an exponent past 99
    /// in size.
    Unread,
    /// Less than 0.
    Below,
    /// From 0 to the bound: so many grains.
    Within(u64),
    /// More than the bound.
    Past,
}

/// What `text` reads as in `unit`, with a bound of `most` grains. Each answer comes exactly where it is right.
#[inline]
#[tactic(auto, using(crate::proofs::AmountLemmas::one_amount))]
pub fn read_amount(unit: &Unit, most: u64, text: &[u8]) -> Amount
    ensures amount { IsAmountOf unit.now most text.now result }
    ensures only { (other : Amount) → IsAmountOf unit.now most text.now other → other ≡ result }
{
    let Some((short, rest)) = take_short(text) else {
        return read_any(unit, most, text);
    };
    match whole_reading(unit, &short, rest) {
        Some(grains) => up_to(most, grains),
        None => read_on(unit, most, text, &short, rest),
    }
}

/// What the literal in front of `text` reads as in `unit`, with a bound of `most` grains, and the text behind it. The literal is the
/// longest front of the text that is one: nothing where no front is.
#[inline]
pub fn read_leading_amount<'a>(unit: &Unit, most: u64, text: &'a [u8]) -> Option<(Amount, &'a [u8])>
    ensures some { IfSome result (λ read. (front : List ℕ) × IsLiteralFront text.now front read.1.now
        × IsAmountOf unit.now most front read.0) }
    ensures none { IfNone result (HasNoLiteralFront text.now) }
{
    let Some((short, rest)) = take_short(text) else {
        return read_any_leading(unit, most, text);
    };
    match leading_reading(unit, &short, rest) {
        Some(grains) => Some((up_to(most, grains), rest)),
        None => Some(read_leading_on(unit, most, text, &short, rest)),
    }
}

/// What a reading of so many grains is.
#[inline]
#[tactic(auto, using(crate::proofs::AmountLemmas::amount_within, crate::proofs::AmountLemmas::amount_past))]
fn up_to(most: u64, grains: u64) -> Amount
    ensures { (unit : Unit) (text : List ℕ) → ReadsAs unit text (pos grains) → IsAmountOf unit most text result }
{
    if grains <= most {
        Amount::Within(grains)
    } else {
        Amount::Past
    }
}

/// The same as [`read_amount`], for each literal.
#[inline(never)]
fn read_any(unit: &Unit, most: u64, text: &[u8]) -> Amount
    ensures { IsAmountOf unit.now most text.now result }
{
    amount_of(unit, most, &read_decimal(text))
}

/// The same as [`read_leading_amount`], for each literal.
#[inline(never)]
fn read_any_leading<'a>(unit: &Unit, most: u64, text: &'a [u8]) -> Option<(Amount, &'a [u8])>
    ensures some { IfSome result (λ read. (front : List ℕ) × IsLiteralFront text.now front read.1.now
        × IsAmountOf unit.now most front read.0) }
    ensures none { IfNone result (HasNoLiteralFront text.now) }
{
    match read_leading_decimal(text) {
        Some((number, rest)) => Some((amount_of(unit, most, &number), rest)),
        None => None,
    }
}

/// The same as [`read_amount`], where the text begins with these digits: they are not looked at again.
#[inline(never)]
fn read_on(unit: &Unit, most: u64, text: &[u8], short: &Short, rest: &[u8]) -> Amount
    requires { HasShortFront text.now short.now rest.now }
    ensures { IsAmountOf unit.now most text.now result }
{
    amount_of(unit, most, &decimal_behind(text, short, rest))
}

/// The same as [`read_leading_amount`], where the text begins with these digits: they are not looked at again.
#[inline(never)]
fn read_leading_on<'a>(
    unit: &Unit,
    most: u64,
    text: &[u8],
    short: &Short,
    rest: &'a [u8],
) -> (Amount, &'a [u8])
    requires { HasShortFront text.now short.now rest.now }
    ensures { (front : List ℕ) × IsLiteralFront text.now front result.1.now × IsAmountOf unit.now most front result.0 }
{
    let (number, left) = leading_decimal_behind(text, short, rest);
    (amount_of(unit, most, &number), left)
}

/// What a text reads as that is this number, or is not read for this fault.
#[tactic(auto, using(crate::proofs::AmountLemmas::signed_is_unread, crate::proofs::AmountLemmas::signed_is_below, crate::proofs::AmountLemmas::signed_is_past))]
fn amount_of(unit: &Unit, most: u64, number: &Result<Decimal, NumberFault>) -> Amount
    ensures { (text : List ℕ) → DecidesNumber text number.now → IsAmountOf unit.now most text result }
{
    match signed_amount_of(unit, most as u128, number) {
        SignedAmount::Unread => Amount::Unread,
        SignedAmount::Below => Amount::Below,
        SignedAmount::Within(grains) => from_zero(grains),
        SignedAmount::Past => Amount::Past,
    }
}

/// What a reading is that is not past the bound in size.
#[tactic(auto, using(crate::proofs::AmountLemmas::amount_below, crate::proofs::AmountLemmas::amount_from_zero))]
fn from_zero(grains: i128) -> Amount
    requires { unsigned_abs grains < 2 ^ 64 }
    ensures { (unit : Unit) (most : ℕ) (text : List ℕ) → ReadsAs unit text grains → unsigned_abs grains ≤ most
        → IsAmountOf unit most text result }
{
    if grains < 0 {
        Amount::Below
    } else {
        Amount::Within(grains as u64)
    }
}
