//! Tokens with which no text of the grammar goes on: an open text, an open comment, a backslash at the end of the file.
ghost use Rattle.std.specs.Prelude.{◌≡◌, position};
ghost use Rattle.spef_text.specs.Tokens.{is_broken, is_broken_cut, ends_text, text_cut, cut_at};

use memchr::memchr2;
use token_texts::{begins_with, pair_place};

/// Behind a quote: whether no other quote stands on the line.
fn is_open_text(rest: &[u8]) -> bool
    ensures { result ≡ is_broken_cut (text_cut rest.now (position ends_text rest.now)) }
{
    match memchr2(b'"', b'\n', rest) {
        Some(place) => rest[place] != b'"',
        None => true,
    }
}

/// Behind a slash: whether it begins a comment that does not end.
fn is_open_comment(rest: &[u8]) -> bool
    ensures { result ≡ is_broken_cut (cut_at 47 rest.now) }
{
    if begins_with(b'/', rest) {
        false
    } else if begins_with(b'*', rest) {
        pair_place(b'*', b'/', rest.split_at(1).1).is_none()
    } else {
        false
    }
}

/// Whether a token is broken. It is the last of its file then.
pub fn is_broken(text: &[u8]) -> bool
    ensures { result ≡ is_broken text.now }
{
    let Some((first, rest)) = text.split_first() else {
        return false;
    };
    if *first == b'"' {
        is_open_text(rest)
    } else if *first == b'/' {
        is_open_comment(rest)
    } else if *first == b'\\' {
        rest.is_empty()
    } else {
        false
    }
}
