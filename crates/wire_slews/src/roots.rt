//! Square roots of whole numbers.
ghost use Rattle.std.specs.Prelude.{◌^◌, ◌≤◌};
ghost use Rattle.wire_slews.specs.Roots.{IsRoot};

/// The square of this number is past 10^25.
const PAST_ROOTS: u128 = 4_000_000_000_000;

/// The root of a number, rounded down: the largest number whose square is at most `n`.
pub fn root(n: u128) -> u128
    requires { n ≤ 10 ^ 25 }
    ensures { IsRoot n result }
{
    let mut low = 0;
    let mut high = PAST_ROOTS;
    while high - low > 1 {
        let middle = low + (high - low) / 2;
        if middle * middle <= n {
            low = middle;
        } else {
            high = middle;
        }
    }
    low
}
