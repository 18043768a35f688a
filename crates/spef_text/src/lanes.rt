//! Bytes of a run, 16 at a time.
ghost use Rattle.std.specs.Prelude.{◌≡◌, ◌+◌, ◌<◌, ◌≤◌, ℕ, false, length, slice_index};
ghost use Rattle.std.specs.Int.{bit_at};
ghost use Rattle.token_texts.specs.Blanks.{is_blank};
ghost use Rattle.spef_text.specs.Tokens.{is_backslash};

use std::simd::prelude::*;

/// So many bytes are looked at together.
pub const WIDTH: usize = 16;

// A bit for each of the bytes from a place on. It is set where the byte may end a run: blanks are no higher than a space.
#[inline]
fn ends_from(bytes: &[u8], place: usize) -> u64
    requires { place + 16 ≤ length bytes.now }
    ensures { (k : ℕ) → k < 16 → bit_at result k ≡ 0 → (is_blank (slice_index bytes.now (place + k)) ≡ false)
        × (is_backslash (slice_index bytes.now (place + k)) ≡ false) }
{
    let lanes = u8x16::from_slice(&bytes[place..]);
    let low = lanes.simd_le(u8x16::splat(b' ')).to_bitmask();
    let slashes = lanes.simd_eq(u8x16::splat(b'\\')).to_bitmask();
    low | slashes
}

/// How many bytes from a place on are known to be no blank and no backslash: at most 16, and none where fewer are left.
#[inline]
pub fn plain_length(bytes: &[u8], place: usize) -> usize
    requires { place ≤ length bytes.now }
    ensures within { place + result ≤ length bytes.now }
    ensures few { result ≤ 16 }
    ensures plain { (k : ℕ) → k < result → (is_blank (slice_index bytes.now (place + k)) ≡ false)
        × (is_backslash (slice_index bytes.now (place + k)) ≡ false) }
{
    if bytes.len() - place < WIDTH {
        return 0;
    }
    let ends = ends_from(bytes, place);
    WIDTH.min(ends.trailing_zeros() as usize)
}
