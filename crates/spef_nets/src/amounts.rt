//! A value of a SPEF file: its members, and how many grains each of them is.
ghost use Rattle.std.specs.Prelude.{◌≡◌, ℕ, List, position, IfOk, IfErr};
ghost use Rattle.delay_units.specs.Amounts.{IsAmountOf};
ghost use Rattle.delay_units.specs.declared.numbers.Unit.{Unit};
ghost use Rattle.spef_text.specs.Classes.{is_colon};
ghost use Rattle.spef_nets.specs.Values.{Triple, single, triple_of, triple_behind, picked, IsAmount, is_bad, IsValueFault, IsReadAs, IsAnswerOf, AreGrains, grains_at};

use corner_set::Pick;
use delay_units::{Amount, Unit, read_amount, read_leading_amount, strip};

/// Why a member of a value is refused.
#[derive(Clone, Copy)]
pub enum AmountFault {
    /// It has more than 30 significant digits, or an exponent past 99 in size, or reads below 0.
    BadNumber,

    /// It is more than is taken.
    ValueTooLarge,
}

/// What a member is that reads as this amount.
#[inline]
fn reading(amount: Amount) -> Result<u64, AmountFault>
    ensures { (unit : Unit) (most : ℕ) (text : List ℕ) → IsAmountOf unit most text amount → IsReadAs unit most text result }
{
    match amount {
        Amount::Unread => Err(AmountFault::BadNumber),
        Amount::Below => Err(AmountFault::BadNumber),
        Amount::Within(grains) => Ok(grains),
        Amount::Past => Err(AmountFault::ValueTooLarge),
    }
}

/// The readings of all three members.
#[derive(Clone, Copy)]
pub struct Grains {
    pub min: u64,
    pub typ: u64,
    pub max: u64,
}

impl Grains {
    /// The reading that counts.
    pub fn of(self, pick: Pick) -> u64
        ensures value { result ≡ grains_at pick self }
        ensures reading { (unit : Unit) (most : ℕ) (triple : Triple) → AreGrains unit most triple self
            → IsAmount unit most (picked pick triple) result }
    {
        match pick {
            Pick::Min => self.min,
            Pick::Typ => self.typ,
            Pick::Max => self.max,
        }
    }
}

fn is_bad(reading: &Result<u64, AmountFault>) -> bool
    ensures { result ≡ is_bad reading.now }
{
    matches!(reading, Err(AmountFault::BadNumber))
}

// All three members are examined: a bad one anywhere comes before one past the bound.
fn all_of(
    min: Result<u64, AmountFault>,
    typ: Result<u64, AmountFault>,
    max: Result<u64, AmountFault>,
) -> Result<Grains, AmountFault>
    ensures { (unit : Unit) (most : ℕ) (triple : Triple) → IsReadAs unit most triple.min min → IsReadAs unit most triple.typ typ
        → IsReadAs unit most triple.max max → IsAnswerOf unit most triple result }
{
    if is_bad(&min) || is_bad(&typ) || is_bad(&max) {
        return Err(AmountFault::BadNumber);
    }
    let Ok(min) = min else {
        return Err(AmountFault::ValueTooLarge);
    };
    let Ok(typ) = typ else {
        return Err(AmountFault::ValueTooLarge);
    };
    let Ok(max) = max else {
        return Err(AmountFault::ValueTooLarge);
    };
    Ok(Grains { min, typ, max })
}

// One number stands for all three members, and is read once.
fn alone(number: Result<u64, AmountFault>) -> Result<Grains, AmountFault>
    ensures { (unit : Unit) (most : ℕ) (text : List ℕ) → IsReadAs unit most text number → IsAnswerOf unit most (single text) result }
{
    match number {
        Ok(grains) => Ok(Grains {
            min: grains,
            typ: grains,
            max: grains,
        }),
        Err(fault) => Err(fault),
    }
}

// Reads the members behind the first one and its colon. Where no colon is behind the next one either, that is the last one too.
fn read_others(
    unit: &Unit,
    most: u64,
    min: Result<u64, AmountFault>,
    text: &[u8],
) -> Result<Grains, AmountFault>
    ensures { (first : List ℕ) → IsReadAs unit.now most first min
        → IsAnswerOf unit.now most (triple_behind first text.now (position is_colon text.now)) result }
{
    let Some((amount, rest)) = read_leading_amount(unit, most, text) else {
        return Err(AmountFault::BadNumber);
    };
    let typ = reading(amount);
    match strip(rest, b':') {
        Some(last) => all_of(min, typ, reading(read_amount(unit, most, last))),
        None if rest.is_empty() => all_of(min, typ, typ),
        None => Err(AmountFault::BadNumber),
    }
}

/// Reads a value. All its members are examined, and a bad one anywhere comes before one past the bound. Each byte is looked at once:
/// no number has a colon, so a member ends where the number in front of it ends, or it is bad.
pub fn grains_of(unit: &Unit, most: u64, text: &[u8]) -> Result<Grains, AmountFault>
    ensures ok { IfOk result (AreGrains unit.now most (triple_of text.now)) }
    ensures err { IfErr result (IsValueFault unit.now most text.now) }
{
    let Some((amount, rest)) = read_leading_amount(unit, most, text) else {
        return Err(AmountFault::BadNumber);
    };
    let first = reading(amount);
    match strip(rest, b':') {
        Some(others) => read_others(unit, most, first, others),
        None if rest.is_empty() => alone(first),
        None => Err(AmountFault::BadNumber),
    }
}
