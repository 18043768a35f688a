//! Single bytes, and the class of blanks.
ghost use Rattle.std.specs.Prelude.{◌≡◌};
ghost use Rattle.edge_io.specs.Bytes.{begins_with};
ghost use Rattle.token_texts.specs.Blanks.{is_blank};

use crate::runs::ByteClass;

/// Whether a byte is a blank: one of the bytes 9 to 13 and 32.
#[inline]
pub fn is_blank(byte: u8) -> bool
    ensures { result ≡ is_blank byte }
{
    matches!(byte, 9..=13 | b' ')
}

/// The class of blanks.
pub struct Blank;

impl ByteClass for Blank {
    ghost is_in = { is_blank };

    #[inline]
    fn has(byte: u8) -> bool {
        is_blank(byte)
    }
}

/// Whether the bytes begin with this one.
#[inline]
pub fn begins_with(byte: u8, bytes: &[u8]) -> bool
    ensures { result ≡ begins_with byte bytes.now }
{
    match bytes {
        [] => false,
        [first, ..] => *first == byte,
    }
}
