//! The numbers of a value.
ghost use Rattle.std.specs.Prelude.{◌≡◌, ◌≤◌, ◌∷◌, ◌++◌, pos, IfSome, IfNone, Option};
ghost use Rattle.sdf_reader.specs.Numbers.{IsTime, single_value, IsMember, AreMembers, IsValue, has_number, HasNoColon};

use crate::rows::Value;
use crate::timescales::Timescale;
use delay_units::{Femto, SignedAmount, Unit, read_signed_amount};
use memchr::memchr;

/// The largest time in size that is read: 10^27 femtoseconds.
const TIME_LIMIT: u128 = 1_000_000_000_000_000_000_000_000_000;

/// The unit of ten to this power femtoseconds.
fn unit_of(power: u32) -> Unit
    requires { power ≤ 99 }
    ensures mantissa { result.mantissa ≡ 1 }
    ensures exponent { result.exponent ≡ pos power }
{
    Unit {
        mantissa: 1,
        exponent: power as i32,
    }
}

/// The time of a literal in units of ten to this power femtoseconds, rounded to a femtosecond.
fn time_of(power: u32, literal: &[u8]) -> Option<Femto>
    requires { power ≤ 99 }
    ensures some { IfSome result (IsTime power literal.now) }
    ensures none { IfNone result ((time : Femto) → IsTime power literal.now time → ⊥) }
{
    match read_signed_amount(&unit_of(power), TIME_LIMIT, literal) {
        SignedAmount::Within(value) => Some(Femto(value)),
        _ => None,
    }
}

/// One of three members: nothing, or a literal. The outer `None` says that it is neither.
fn member_of(power: u32, text: &[u8]) -> Option<Option<Femto>>
    requires { power ≤ 99 }
    ensures some { IfSome result (IsMember power text.now) }
    ensures none { IfNone result ((member : Option Femto) → IsMember power text.now member → ⊥) }
{
    if text.is_empty() {
        return Some(None);
    }
    match time_of(power, text) {
        Some(time) => Some(Some(time)),
        None => None,
    }
}

/// Whether a value has a number.
fn has_number(value: &Value) -> bool
    ensures { result ≡ has_number value.now }
{
    value.min.is_some() || value.typ.is_some() || value.max.is_some()
}

/// The value of three members, of which one at least is there.
fn triple_of(power: u32, min: &[u8], typ: &[u8], max: &[u8]) -> Option<Value>
    requires { power ≤ 99 }
    ensures some { IfSome result (AreMembers power min.now typ.now max.now) }
    ensures none { IfNone result ((value : Value) → AreMembers power min.now typ.now max.now value → ⊥) }
{
    let value = Value {
        min: member_of(power, min)?,
        typ: member_of(power, typ)?,
        max: member_of(power, max)?,
    };
    if has_number(&value) {
        Some(value)
    } else {
        None
    }
}

/// The value of a literal, which is all three members.
fn single_of(power: u32, literal: &[u8]) -> Option<Value>
    requires { power ≤ 99 }
    ensures some { IfSome result (λ value. (time : Femto) × IsTime power literal.now time × (value ≡ single_value time)) }
    ensures none { IfNone result ((time : Femto) → IsTime power literal.now time → ⊥) }
{
    match time_of(power, literal) {
        None => None,
        Some(time) => Some(Value {
            min: Some(time),
            typ: Some(time),
            max: Some(time),
        }),
    }
}

/// The bytes before the first colon, and those behind it.
fn split_colon(text: &[u8]) -> Option<(&[u8], &[u8])>
    ensures some { IfSome result (λ parts. (text.now ≡ parts.0.now ++ 58 ∷ parts.1.now) × HasNoColon parts.0.now) }
    ensures none { IfNone result (HasNoColon text.now) }
{
    match memchr(b':', text) {
        None => None,
        Some(place) => {
            let (front, behind) = text.split_at(place);
            Some((front, behind.split_at(1).1))
        }
    }
}

/// The value that a word says: a literal, which is all three members, or three members with colons between them. `None` where
/// it says none: it has another form, over thirty significant digits in a member, an exponent over 99, or a time over 10^27
/// femtoseconds in size.
pub(crate) fn value_of(scale: Timescale, word: &[u8]) -> Option<Value>
    ensures some { IfSome result (IsValue scale word.now) }
    ensures none { IfNone result ((value : Value) → IsValue scale word.now value → ⊥) }
{
    let power = scale.power();
    match split_colon(word) {
        None => single_of(power, word),
        Some((min, others)) => match split_colon(others) {
            None => None,
            Some((typ, max)) => triple_of(power, min, typ, max),
        },
    }
}
