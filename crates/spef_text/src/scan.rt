//! What stands at the front of a file's bytes: a blank, a comment or a token.
ghost use Rattle.std.specs.Prelude.{◌≡◌, true, false, ◌+◌, ◌^◌, ◌<◌, ◌≤◌, ◌∷◌, length, position, slice_index, IfSome};
ghost use Rattle.spef_text.specs.Tokens.{ends_text, text_cut, run_length, cut_at};
ghost use Rattle.spef_text.specs.Starts.{front_cut};
ghost use Rattle.spef_text.specs.declared.scan.Kind.TheVariants.{Whole};
ghost use Rattle.token_texts.specs.Blanks.{is_blank};
ghost use Rattle.token_texts.specs.Cuts.{IsWithin, HasGapBehind};
ghost use Rattle.token_texts.specs.declared.cuts.Cut.TheVariants.{Take};

use crate::lanes::{WIDTH, plain_length};
use memchr::memchr2;
use token_texts::{Cut, Front, begins_with, comment_cut, is_blank, line_length};

/// What a token is: one that can stand in a text, or one that is broken, which takes all the bytes that are left.
#[derive(Clone, Copy)]
pub enum Kind {
    Whole,
    Broken,
}

/// Behind a quote: a text to the next quote of the line, or an open one.
fn text_cut(rest: &[u8]) -> Cut<Kind>
    requires { length rest.now < 2 ^ 32 }
    ensures { result ≡ text_cut rest.now (position ends_text rest.now) }
{
    match memchr2(b'"', b'\n', rest) {
        Some(place) if rest[place] == b'"' => Cut::Take(place + 2, Kind::Whole),
        _ => Cut::Take(rest.len() + 1, Kind::Broken),
    }
}

/// How many bytes the longest run has that holds no blank, where a backslash takes the next byte with it.
#[inline]
fn run_length(bytes: &[u8]) -> usize
    ensures value { result ≡ run_length bytes.now }
    ensures within { result ≤ length bytes.now }
{
    let mut place = 0;
    while place < bytes.len() {
        place += plain_length(bytes, place);
        if place == bytes.len() {
            break;
        }
        let byte = bytes[place];
        if byte == b'\\' {
            if bytes.len() - place == 1 {
                break;
            }
            place += 2;
        } else if is_blank(byte) {
            break;
        } else {
            place += 1;
        }
    }
    place
}

/// Behind a slash: a comment, or a run of bytes.
fn slash_cut(rest: &[u8]) -> Cut<Kind>
    requires { length rest.now < 2 ^ 32 }
    ensures { result ≡ cut_at 47 rest.now }
{
    if begins_with(b'/', rest) {
        Cut::Skip(line_length(rest))
    } else if begins_with(b'*', rest) {
        comment_cut(b'/', Kind::Broken, rest.split_at(1).1)
    } else {
        Cut::Take(run_length(rest) + 1, Kind::Whole)
    }
}

/// Behind a backslash: a run of bytes, the first of which it takes with it.
fn backslash_cut(rest: &[u8]) -> Cut<Kind>
    requires { length rest.now < 2 ^ 32 }
    ensures { result ≡ cut_at 92 rest.now }
{
    if rest.is_empty() {
        Cut::Take(rest.len() + 1, Kind::Broken)
    } else {
        Cut::Take(run_length(rest.split_at(1).1) + 2, Kind::Whole)
    }
}

/// How many bytes the token at the front has, where that is seen at a look: at most 16, with a blank behind them, and neither a text nor
/// a comment.
#[inline(always)]
fn short_run(bytes: &[u8], first: u8) -> Option<usize>
    requires front { slice_index bytes.now 0 ≡ first }
    ensures cut { IfSome result (λ len. front_cut bytes.now ≡ Take len Whole) }
    ensures gap { IfSome result (λ len. (len < length bytes.now) × (is_blank (slice_index bytes.now len) ≡ true)) }
{
    if bytes.len() <= WIDTH {
        return None;
    }
    let len = plain_length(bytes, 0);
    if len == 0 || first == b'"' || first == b'/' || !is_blank(bytes[len]) {
        return None;
    }
    Some(len)
}

/// What stands at the front of `first` and `rest`, where the first is no blank.
#[inline(never)]
fn marked_cut(first: u8, rest: &[u8]) -> Cut<Kind>
    requires bytes { length rest.now < 2 ^ 32 }
    requires solid { is_blank first ≡ false }
    ensures { result ≡ cut_at first rest.now }
{
    if first == b'"' {
        text_cut(rest)
    } else if first == b'/' {
        slash_cut(rest)
    } else if first == b'\\' {
        backslash_cut(rest)
    } else {
        Cut::Take(run_length(rest) + 1, Kind::Whole)
    }
}

/// The same for any first byte. What it answers stands in memory of its own, which the way of a short run does not touch.
#[inline(always)]
fn other_cut(first: u8, rest: &[u8]) -> Cut<Kind>
    requires { length rest.now < 2 ^ 32 }
    ensures { result ≡ cut_at first rest.now }
{
    if is_blank(first) {
        Cut::Skip(1)
    } else {
        marked_cut(first, rest)
    }
}

/// What stands at the front of the bytes, which are `first` and `rest`: mostly a short run with a blank behind it.
#[inline(always)]
pub fn front_at(bytes: &[u8], first: u8, rest: &[u8]) -> Front<Kind>
    requires parts { bytes.now ≡ first ∷ rest.now }
    requires bytes { length bytes.now < 2 ^ 32 }
    ensures value { result.cut ≡ cut_at first rest.now }
    ensures within { IsWithin (length bytes.now) result.cut }
    ensures gap { result.has_gap ≡ true → HasGapBehind cut_at bytes.now result.cut }
{
    match short_run(bytes, first) {
        Some(len) => Front {
            cut: Cut::Take(len, Kind::Whole),
            has_gap: true,
        },
        None => Front {
            cut: other_cut(first, rest),
            has_gap: false,
        },
    }
}

/// The same, without what stands behind it.
#[inline]
pub fn cut_at(bytes: &[u8], first: u8, rest: &[u8]) -> Cut<Kind>
    requires parts { bytes.now ≡ first ∷ rest.now }
    requires bytes { length bytes.now < 2 ^ 32 }
    ensures value { result ≡ cut_at first rest.now }
    ensures within { IsWithin (length bytes.now) result }
{
    front_at(bytes, first, rest).cut
}
