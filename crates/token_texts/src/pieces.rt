//! The pieces of a text between bytes that part them, as the items of a list.
ghost use Rattle.std.specs.Prelude.{◌≡◌, ◌<◌, ◌≤◌, ◌∷◌, [], length, IfSome, IfNone};
ghost use Rattle.std.specs.List.{position_or_len};
ghost use Rattle.token_texts.specs.Pieces.{pieces_between};

use crate::runs::{ByteClass, run_length};

/// The place of the first byte of the class, or the length where there is none.
#[inline]
fn first_place<C: ByteClass>(bytes: &[u8]) -> usize
    ensures value { result ≡ position_or_len C.is_in bytes.now }
    ensures within { result ≤ length bytes.now }
{
    let mut place = 0;
    while place < bytes.len() {
        if C::has(bytes[place]) {
            break;
        }
        place += 1;
    }
    place
}

/// The first piece of a text between bytes of the class, and what stands behind it: nothing where all bytes are of the class.
/// A piece has a byte or more.
#[inline]
pub fn first_piece<C: ByteClass>(text: &[u8]) -> Option<(&[u8], &[u8])>
    ensures some { IfSome result (λ parts. pieces_between C.is_in text.now ≡ parts.0.now ∷ pieces_between C.is_in parts.1.now) }
    ensures shorter { IfSome result (λ parts. length parts.1.now < length text.now) }
    ensures none { IfNone result (pieces_between C.is_in text.now ≡ []) }
{
    let rest = text.split_at(run_length::<C>(text)).1;
    if rest.is_empty() {
        return None;
    }
    Some(rest.split_at(first_place::<C>(rest)))
}
