//! The units of a library (Liberty, `time_unit` and `capacitive_load_unit`).
ghost use Rattle.std.specs.Prelude.{◌≡◌, ◌≤◌, unsigned_abs, IfSome, IfNone};
ghost use Rattle.delay_units.specs.declared.numbers.Unit.{Unit};
ghost use Rattle.liberty_groups.specs.Tables.{tree_of};
ghost use Rattle.liberty_tables.specs.LibraryUnits.{time_power, load_power, IsUnitOf, IsTimeUnit, IsLoadUnit};

use crate::groups::{value_in, values_in};
use delay_units::{Atto, Farads, Unit, read_decimal, unit};
use liberty_groups::GroupTree;

// The power of ten that a unit of time stands for, in attoseconds.
fn time_power(text: &[u8]) -> Option<i32>
    ensures power { result ≡ time_power text.now }
    ensures small { IfSome result (λ power. unsigned_abs power ≤ 99) }
{
    if text == b"1ps".as_slice() {
        Some(Atto::PICOSECOND_POWER)
    } else if text == b"10ps".as_slice() {
        Some(Atto::PICOSECOND_POWER + 1)
    } else if text == b"100ps".as_slice() {
        Some(Atto::PICOSECOND_POWER + 2)
    } else if text == b"1ns".as_slice() {
        Some(Atto::NANOSECOND_POWER)
    } else {
        None
    }
}

/// The unit of times, a nanosecond where none is named.
pub fn time_unit(tree: &GroupTree) -> Option<Unit>
    ensures some { IfSome result (IsTimeUnit (tree_of tree.now)) }
    ensures none { IfNone result ((unit : Unit) → ¬ IsTimeUnit (tree_of tree.now) unit) }
{
    let exponent = match value_in(tree, tree.root(), b"time_unit") {
        Some(text) => time_power(text)?,
        None => Atto::NANOSECOND_POWER,
    };
    Some(Unit {
        mantissa: 1,
        exponent,
    })
}

// The power of ten that a unit of capacitance stands for, in grains of 10^-21 F.
#[tactic(auto, unfolding(crate::specs::LibraryUnits::load_power))]
fn load_power(word: &[u8]) -> Option<i32>
    ensures power { result ≡ load_power word.now }
    ensures small { IfSome result (λ power. unsigned_abs power ≤ 99) }
{
    if word.eq_ignore_ascii_case(b"ff") {
        Some(Farads::FEMTOFARAD_POWER)
    } else if word.eq_ignore_ascii_case(b"pf") {
        Some(Farads::PICOFARAD_POWER)
    } else {
        None
    }
}

// The unit that a number and a word name.
fn unit_of(number: &[u8], word: &[u8]) -> Option<Unit>
    ensures some { IfSome result (IsUnitOf number.now word.now) }
    ensures none { IfNone result ((unit : Unit) → ¬ IsUnitOf number.now word.now unit) }
{
    match load_power(word) {
        None => None,
        Some(power) => match read_decimal(number) {
            Ok(value) => unit(&value, power),
            Err(_) => None,
        },
    }
}

/// The unit of loads, which every library names.
pub fn load_unit(tree: &GroupTree) -> Option<Unit>
    ensures some { IfSome result (IsLoadUnit (tree_of tree.now)) }
    ensures none { IfNone result ((unit : Unit) → ¬ IsLoadUnit (tree_of tree.now) unit) }
{
    let attribute = values_in(tree, tree.root(), b"capacitive_load_unit")?;
    if tree.value_count(attribute) != 2 {
        return None;
    }
    let number = tree.value(attribute, 0).bytes();
    let word = tree.value(attribute, 1).bytes();
    unit_of(number, word)
}
