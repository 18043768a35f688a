//! Values that are decimals, as whole grains.
ghost use Rattle.std.specs.Prelude.{◌≡◌, ℕ, pos, IfSome, IfNone};
ghost use Rattle.gdc_words.specs.Decimals.{IsGrains};

use delay_units::{Amount, Unit, read_amount};

/// The most grains of a value: a microsecond of attoseconds, or a nanofarad of 10^-21 F.
const MOST_GRAINS: u64 = 1_000_000_000_000;

/// A picosecond of attoseconds, or a femtofarad of 10^-21 F: ten to this power.
const UNIT_POWER: i32 = 6;

// The unit of the values.
fn unit() -> Unit
    ensures mantissa { result.mantissa ≡ 1 }
    ensures exponent { result.exponent ≡ pos 6 }
{
    Unit {
        mantissa: 1,
        exponent: UNIT_POWER,
    }
}

/// The grains that a value reads as, rounded half up: none where it is no decimal, has more than 30 significant digits or an
/// exponent past 99 in size, or reads below 0 or over 10^12 grains.
pub(crate) fn grains_of(value: &[u8]) -> Option<u64>
    ensures some { IfSome result (IsGrains value.now) }
    ensures none { IfNone result ((grains : ℕ) → ¬ IsGrains value.now grains) }
{
    match read_amount(&unit(), MOST_GRAINS, value) {
        Amount::Within(grains) => Some(grains),
        _ => None,
    }
}
