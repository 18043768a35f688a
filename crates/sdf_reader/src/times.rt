//! Times in picoseconds, of any size.
ghost use Rattle.std.specs.Prelude.{◌≡◌, ◌<◌, ◌∷◌, [], if◌then◌else◌};
ghost use Rattle.edge_io.specs.Writing.{Writes};
ghost use Rattle.delay_units.specs.Printing.{last_digits, signed_fixed_text};

use edge_io::{Failed, Sink, write_4};
use itoa::Buffer;

/// The three digits of a number below a thousand.
fn three_digits(number: u128) -> [u8; 3]
    requires { number < 1000 }
    ensures { result ≡ last_digits 3 number }
{
    let number = number as u16;
    [
        b'0' + (number / 100) as u8,
        b'0' + (number / 10 % 10) as u8,
        b'0' + (number % 10) as u8,
    ]
}

/// What stands before the digits.
fn sign_of(negative: bool) -> &'static [u8]
    ensures { result.now ≡ (if negative then 45 ∷ [] else []) }
{
    if negative { b"-" } else { b"" }
}

/// Writes a time in picoseconds with exactly three decimals, and `-` before a negative one.
pub(crate) fn print_time<O: Sink>(femtoseconds: i128, sink: &mut O) -> Result<(), Failed>
    ensures writes { Writes (signed_fixed_text 3 femtoseconds) (O.written sink.old) (O.written sink.new) (O.faults sink.old)
        (O.faults sink.new) result }
{
    let size = femtoseconds.unsigned_abs();
    write_4(
        sink,
        sign_of(femtoseconds < 0),
        Buffer::new().format(size / 1000).as_bytes(),
        b".",
        &three_digits(size % 1000),
    )
}
