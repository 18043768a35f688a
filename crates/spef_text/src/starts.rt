//! Tokens by the places of their first bytes, in 4 bytes, and by their lengths, in one. Few are longer than that byte tells: where they
//! end is seen again when their texts are asked for.
ghost use Rattle.std.specs.Prelude.{◌≡◌, ◌<◌, ◌^◌, length};
ghost use Rattle.spef_text.specs.Starts.{front_token, token_at, short_len};

use crate::scan::cut_at;
use token_texts::Cut;

/// The token at the front of the bytes, or none of them where none is there.
fn front_token(bytes: &[u8]) -> &[u8]
    requires { length bytes.now < 2 ^ 32 }
    ensures { result.now ≡ front_token bytes.now }
{
    let Some((first, rest)) = bytes.split_first() else {
        return &[];
    };
    match cut_at(bytes, *first, rest) {
        Cut::Skip(_) => &[],
        Cut::Take(len, _) => bytes.split_at(len).0,
    }
}

/// The token that begins at a place, where its length is not known, or no bytes where none begins there.
#[inline(never)]
fn long_token_at(bytes: &[u8], start: u32) -> &[u8]
    requires { length bytes.now < 2 ^ 32 }
    ensures { result.now ≡ token_at bytes.now start }
{
    let start = (start as usize).min(bytes.len());
    front_token(bytes.split_at(start).1)
}

/// The length of a token as it is kept: 255 stands for all that are longer.
#[inline]
pub fn short_len(text: &[u8]) -> u8
    ensures { result ≡ short_len text.now }
{
    text.len().min(255) as u8
}

/// The token that begins at a place and has this length, or no bytes where none begins there.
#[inline]
pub fn token_at(bytes: &[u8], start: u32, len: u8) -> &[u8]
    requires bytes { length bytes.now < 2 ^ 32 }
    requires len { len ≡ short_len (token_at bytes.now start) }
    ensures { result.now ≡ token_at bytes.now start }
{
    if matches!(len, 1..=254) {
        let start = start as usize;
        &bytes[start..start + len as usize]
    } else {
        long_token_at(bytes, start)
    }
}
