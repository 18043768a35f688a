//! The running value of the digits of a literal.
ghost use Rattle.std.specs.Prelude.{◌≡◌, ◌∷◌, ◌++◌, [], ℕ, ◌+◌, ◌*◌, ◌^◌, ◌<◌, ◌≤◌, List, length};

/// The digits that were read: how many, how many of them are significant, how many zeros stand behind those, and the
/// number that the significant ones write, which is kept as long as they are at most [`Tally::MOST`].
#[derive(Clone, Copy)]
pub struct Tally {
    pub number: u128,
    pub significant: usize,
    pub zeros: usize,
    pub digits: usize,
}

impl Tally {
    ghost use Rattle.delay_units.specs.Tallies.{IsTallyOf};
    ghost use Rattle.delay_units.specs.Parts.{SplitsDigits};

    /// The most significant digits of which the number is kept.
    pub const MOST: usize = 30;

    pub fn new() -> Tally
        ensures { IsTallyOf [] result }
    {
        Tally {
            number: 0,
            significant: 0,
            zeros: 0,
            digits: 0,
        }
    }

    /// Counts one more digit.
    #[inline]
    fn push(&mut self, digit: u8)
        requires low { 48 ≤ digit }
        requires high { digit ≤ 57 }
        requires room { self.old.digits + 1 < 2 ^ 64 }
        requires tally { (ds : List ℕ) × IsTallyOf ds self.old }
        ensures tally { (ds : List ℕ) → IsTallyOf ds self.old → IsTallyOf (ds ++ digit ∷ []) self.new }
        ensures digits { self.new.digits ≡ self.old.digits + 1 }
    {
        let digits = self.digits + 1;
        if digit == b'0' {
            self.zeros += 1;
            self.digits = digits;
            return;
        }
        let value = (digit - b'0') as u128;
        if self.significant == 0 {
            *self = Tally {
                number: value,
                significant: 1,
                zeros: 0,
                digits,
            };
            return;
        }
        let significant = self.significant + (self.zeros + 1);
        *self = Tally {
            number: self.number_with(value, significant),
            significant,
            zeros: 0,
            digits,
        };
    }

    /// The number with a digit of this value behind the zeros, where it is kept.
    #[inline]
    fn number_with(&self, value: u128, significant: usize) -> u128
        requires count { significant ≡ self.now.significant + (self.now.zeros + 1) }
        requires room { significant ≤ 30 → self.now.number * 10 ^ (self.now.zeros + 1) + value < 10 ^ 30 }
        ensures { significant ≤ 30 → result ≡ self.now.number * 10 ^ (self.now.zeros + 1) + value }
    {
        if significant > Tally::MOST {
            return self.number;
        }
        self.number * ten_to(self.zeros + 1) + value
    }

    /// Counts the digits at the front of the text, and gives the rest.
    pub fn take_digits<'a>(&mut self, text: &'a [u8]) -> &'a [u8]
        requires room { self.old.digits + length text.now < 2 ^ 64 }
        requires tally { (before : List ℕ) × IsTallyOf before self.old }
        ensures split { (before : List ℕ) → IsTallyOf before self.old
            → SplitsDigits before text.now self.new result.now }
    {
        let mut rest = text;
        while let [first, after @ ..] = rest {
            if !first.is_ascii_digit() {
                break;
            }
            self.push(*first);
            rest = after;
        }
        rest
    }
}

/// 10 to the power `k`.
#[inline]
pub fn ten_to(k: usize) -> u128
    requires { k ≤ 38 }
    ensures { result ≡ 10 ^ k }
{
    if k == 1 { 10 } else { 10u128.pow(k as u32) }
}
