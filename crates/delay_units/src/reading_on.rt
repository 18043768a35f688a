//! Reads on where a text begins with short digits, so that no byte of them is looked at again.
ghost use Rattle.std.specs.Prelude.{◌≡◌, ◌≢◌, ℕ, ◌*◌, ◌%◌, ◌^◌, ◌<◌, ◌≤◌, List, length};
ghost use Rattle.delay_units.specs.Literal.{AreDigits, number_of};
ghost use Rattle.delay_units.specs.LiteralFronts.{IsLiteralFront};
ghost use Rattle.delay_units.specs.Parts.{SplitsMantissa, DecidesNumber};
ghost use Rattle.delay_units.specs.ShortLiterals.{HasShortFront};
ghost use Rattle.delay_units.specs.Tallies.{IsTallyOf};

use crate::literal::{decimal_of, leading_exponent, mantissa_from, read_exponent};
use crate::numbers::{Decimal, NumberFault};
use crate::short_literals::Short;
use crate::tally::Tally;

/// What a text is read as that begins with these digits.
pub fn decimal_behind(text: &[u8], short: &Short, rest: &[u8]) -> Result<Decimal, NumberFault>
    requires { HasShortFront text.now short.now rest.now }
    ensures { DecidesNumber text.now result }
{
    let (tally, places, tail) = mantissa_behind(text, short, rest);
    match read_exponent(tail) {
        Ok(power) => decimal_of(false, &tally, places, &power),
        Err(left) => Err(NumberFault::NotANumber(text.len() - left)),
    }
}

/// What the literal in front of a text is read as that begins with these digits, and the text behind it.
pub fn leading_decimal_behind<'a>(
    text: &[u8],
    short: &Short,
    rest: &'a [u8],
) -> (Result<Decimal, NumberFault>, &'a [u8])
    requires { HasShortFront text.now short.now rest.now }
    ensures { (front : List ℕ) × IsLiteralFront text.now front result.1.now × DecidesNumber front result.0 }
{
    let (tally, places, tail) = mantissa_behind(text, short, rest);
    let (power, left) = leading_exponent(tail);
    (decimal_of(false, &tally, places, &power), left)
}

/// The digits before the exponent of a text that begins with these, how many of them stand behind the point, and the rest of the text.
fn mantissa_behind<'a>(text: &[u8], short: &Short, rest: &'a [u8]) -> (Tally, usize, &'a [u8])
    requires { HasShortFront text.now short.now rest.now }
    ensures { SplitsMantissa text.now result.0 result.1 result.2.now }
{
    let taken = text.len() - rest.len();
    if short.pointed {
        let mut tally = tally_of(short.digits, taken - 1);
        let tail = tally.take_digits(rest);
        let places = short.places as usize + (rest.len() - tail.len());
        return (tally, places, tail);
    }
    let mut whole = tally_of(short.digits, taken);
    let tail = whole.take_digits(rest);
    mantissa_from(whole, tail)
}

/// The tally of so many digits, 18 at most, that write this number.
fn tally_of(number: u64, count: usize) -> Tally
    ensures { (ds : List ℕ) → AreDigits ds → length ds ≡ count → count ≤ 18 → number ≡ number_of ds → IsTallyOf ds result }
{
    if number == 0 {
        return Tally {
            number: 0,
            significant: 0,
            zeros: count,
            digits: count,
        };
    }
    let (front, zeros) = without_zeros(number);
    Tally {
        number: front as u128,
        significant: front.ilog10() as usize + 1,
        zeros,
        digits: count,
    }
}

/// A number without the zeros at its end, and how many they are.
fn without_zeros(number: u64) -> (u64, usize)
    requires { number ≢ 0 }
    ensures split { number ≡ result.0 * 10 ^ result.1 }
    ensures last { result.0 % 10 ≢ 0 }
{
    let mut front = number;
    let mut zeros = 0;
    while front % 10 == 0 {
        front /= 10;
        zeros += 1;
    }
    (front, zeros)
}
