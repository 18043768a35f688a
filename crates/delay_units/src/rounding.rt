//! Rounding half up, toward the greater.
ghost use Rattle.std.specs.Prelude.{◌≡◌, ◌^◌, ◌≤◌, ℤ, pos, ◌≤ℤ◌, unsigned_abs};
ghost use Rattle.std.specs.Int.{int_div_euclid, int_rem_euclid};
ghost use Rattle.delay_units.specs.Rounding.{IsRounding, OneRounding};

// The rest of a division, by its quotient. A division takes long, and this is no second one.
#[inline]
fn rest_of(n: i128, d: i128, whole: i128) -> i128
    requires divisor { pos 1 ≤ℤ d }
    requires small_divisor { d ≤ℤ pos (10 ^ 37) }
    requires small { unsigned_abs n ≤ 10 ^ 38 }
    requires whole { whole ≡ int_div_euclid n d }
    ensures { result ≡ int_rem_euclid n d }
{
    n - whole * d
}

/// `n / d` rounded to the nearest integer, and to the greater of two that are as near.
pub fn half_up(n: i128, d: i128) -> i128
    requires divisor { pos 1 ≤ℤ d }
    requires small_divisor { d ≤ℤ pos (10 ^ 37) }
    requires small { unsigned_abs n ≤ 10 ^ 38 }
    ensures rounded { IsRounding n d result }
    ensures only { (v : ℤ) → IsRounding n d v → v ≡ result }
{
    let whole = n.div_euclid(d);
    let rest = rest_of(n, d, whole);
    if 2 * rest < d { whole } else { whole + 1 }
}

/// The law of rounding, which its contract states: a quotient by a positive number has one rounding, and no
/// second. It does nothing when it is called.
pub fn one_rounding()
    ensures law { OneRounding }
{}
