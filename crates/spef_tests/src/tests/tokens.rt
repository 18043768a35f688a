//! Bytes, and how many tokens they are parted into.
ghost use Rattle.std.specs.Prelude.{◌<◌, ◌^◌, length};

use spef_text::{SpefEnd, parse};
use std::alloc::Global;
use std::test::Fail;

/// A file that says the first keyword twice, and the number of its dead token: of the second keyword, or of a broken token before it.
const PARTED: [(&[u8], u64); 11] = [
    (b"*SPEF \t\n\x0b\x0c\r *SPEF", 2),
    // Comments, and marks of them inside of a token.
    (b"*SPEF // a\nb *SPEF", 3),
    (b"*SPEF /*/ a */b *SPEF", 3),
    (b"*SPEF a//b /c / / *SPEF", 6),
    (b"*SPEF a /* *SPEF", 3),
    // Texts, and quotes inside of a token.
    (b"*SPEF \"\"\"a\"b \"// c\" *SPEF", 6),
    (b"*SPEF \"a\\\" b\" *SPEF", 4),
    (b"*SPEF x \"a\nb\" c *SPEF", 3),
    // A backslash takes the next byte.
    (b"*SPEF a\\ b c *SPEF", 4),
    (b"*SPEF a\\\nb \\\\ c *SPEF", 5),
    (b"*SPEF a\x00\xff \x0eb *SPEF", 4),
];

fn dies_at(alloc: Global, bytes: &[u8], dead: u64) -> bool
    requires { length bytes.now < 2 ^ 30 }
{
    match parse(alloc, bytes) {
        Err(SpefEnd::Syntax { token }) => token == dead,
        _ => false,
    }
}

#[test]
fn bytes_are_parted_into_tokens(rt: HostRuntime) -> Result<(), Fail> {
    for (bytes, dead) in &PARTED {
        assert!(rt; bytes.len() < 1 << 20);
        assert!(rt; dies_at(rt.alloc(), bytes, *dead), "{bytes:?}");
    }
    Ok(())
}
