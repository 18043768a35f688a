//! Times as decimal texts in picoseconds.
ghost use Rattle.std.specs.Prelude.{◌≡◌, ◌+◌, ◌/◌, ◌%◌, ◌^◌, ◌<◌, ◌≤◌, [], ◌∷◌, ◌++◌, length, take, unsigned_abs, if◌then◌else◌, decimal};
ghost use Rattle.delay_units.specs.Printing.{last_digits, femto_text, atto_text};

use crate::quantities::{Atto, Femto};
use itoa::Buffer;

/// A text of at most 32 bytes: the first `length` of `bytes`.
#[derive(Clone, Copy)]
pub struct Text32 {
    /// The bytes of the text, and behind them any others.
    pub bytes: [u8; 32],
    /// The length of the text, at most 32.
    pub length: usize,
    pub ghost within: { length ≤ 32 },
}

impl Text32 {
    /// The empty text.
    pub fn new() -> Text32
        ensures { result.length ≡ 0 }
    {
        Text32 {
            bytes: [0; 32],
            length: 0,
        }
    }

    /// The bytes of the text.
    pub fn as_bytes(&self) -> &[u8]
        ensures { result.now ≡ take self.now.length self.now.bytes }
    {
        &self.bytes[..self.length]
    }

    fn push(&mut self, byte: u8)
        requires { self.old.length < 32 }
        ensures text { take self.new.length self.new.bytes ≡ take self.old.length self.old.bytes ++ byte ∷ [] }
        ensures length { self.new.length ≡ self.old.length + 1 }
    {
        self.bytes[self.length] = byte;
        self.length += 1;
    }

    fn push_all(&mut self, bytes: &[u8])
        requires { self.old.length + length bytes.now ≤ 32 }
        ensures text { take self.new.length self.new.bytes ≡ take self.old.length self.old.bytes ++ bytes.now }
        ensures length { self.new.length ≡ self.old.length + length bytes.now }
    {
        let end = self.length + bytes.len();
        self.bytes[self.length..end].copy_from_slice(bytes);
        self.length = end;
    }

    fn push_three_digits(&mut self, n: u64)
        requires small { n < 1000 }
        requires room { self.old.length + 3 ≤ 32 }
        ensures text { take self.new.length self.new.bytes
            ≡ take self.old.length self.old.bytes ++ last_digits 3 n }
        ensures length { self.new.length ≡ self.old.length + 3 }
    {
        self.push(b'0' + (n / 100) as u8);
        self.push(b'0' + (n / 10 % 10) as u8);
        self.push(b'0' + (n % 10) as u8);
    }

    /// Starts the text with `-` or nothing.
    fn set_sign(&mut self, negative: bool)
        ensures text { take self.new.length self.new.bytes ≡ (if negative then 45 ∷ [] else []) }
        ensures length { self.new.length ≤ 1 }
    {
        self.length = 0;
        if negative {
            self.push(b'-');
        }
    }

    /// Starts the text: `-` where the number is negative, the digits before the point, and the point.
    fn start(&mut self, negative: bool, whole: u128)
        requires { whole ≤ 10 ^ 24 }
        ensures text { take self.new.length self.new.bytes
            ≡ (if negative then 45 ∷ [] else []) ++ (decimal whole ++ (46 ∷ [])) }
        ensures length { self.new.length ≤ 2 + length (decimal whole) }
        ensures short { length (decimal whole) ≤ 25 }
    {
        self.set_sign(negative);
        self.push_all(Buffer::new().format(whole).as_bytes());
        self.push(b'.');
    }
}

/// Writes a time in picoseconds with exactly three decimals, and `-` before a negative one.
pub fn write_femto(value: Femto, text: &mut Text32)
    requires { unsigned_abs value.0 ≤ 10 ^ 27 }
    ensures { take text.new.length text.new.bytes ≡ femto_text value }
{
    let (whole, rest) = thousands(value.0.unsigned_abs());
    text.start(value.0 < 0, whole);
    text.push_three_digits(rest);
}

/// Writes a time in picoseconds with exactly six decimals, and `-` before a negative one.
pub fn write_atto(value: Atto, text: &mut Text32)
    ensures { take text.new.length text.new.bytes ≡ atto_text value }
{
    let size = value.0.unsigned_abs();
    text.start(value.0 < 0, (size / 1_000_000) as u128);
    text.push_three_digits(size / 1000 % 1000);
    text.push_three_digits(size % 1000);
}

/// The quotient and the rest by a thousand. A number below 2^64, which most are, needs no division of 128 bits.
fn thousands(n: u128) -> (u128, u64)
    ensures quotient { result.0 ≡ n / 1000 }
    ensures rest { result.1 ≡ n % 1000 }
{
    if n <= u64::MAX as u128 {
        let n = n as u64;
        ((n / 1000) as u128, n % 1000)
    } else {
        (n / 1000, (n % 1000) as u64)
    }
}
