//! Comments.
ghost use Rattle.std.specs.Prelude.{◌≡◌, ◌+◌, ◌^◌, ◌<◌, ◌≤◌, length};
ghost use Rattle.std.specs.Option.{IfSome};
ghost use Rattle.token_texts.specs.Comments.{line_length, pair_place, comment_cut, comment_at};
ghost use Rattle.token_texts.specs.Cuts.{IsWithin};

use crate::blanks::begins_with;
use crate::cuts::Cut;
use memchr::{memchr, memmem};

/// Behind the first byte of a comment that goes up to the end of its line: how many bytes the comment has. The line end is none
/// of them.
pub fn line_length(rest: &[u8]) -> usize
    requires { length rest.now < 2 ^ 32 }
    ensures value { result ≡ line_length rest.now }
    ensures within { (0 < result) × (result ≤ length rest.now + 1) }
{
    match memchr(b'\n', rest) {
        Some(place) => place + 1,
        None => rest.len() + 1,
    }
}

/// The place of the first `one` that has `two` right behind it.
#[inline]
pub fn pair_place(one: u8, two: u8, bytes: &[u8]) -> Option<usize>
    ensures value { result ≡ pair_place one two bytes.now }
    ensures within { IfSome result (λ place. place + 2 ≤ length bytes.now) }
{
    memmem::find(bytes, &[one, two])
}

/// Behind the two bytes that begin a comment, as `/*`: the comment, which the first `*` with `last` right behind it ends, or, where
/// none does, a token of the kind that takes all.
pub fn comment_cut<K: Copy>(last: u8, open_kind: K, inner: &[u8]) -> Cut<K>
    requires { length inner.now < 2 ^ 32 }
    ensures value { result ≡ comment_cut last open_kind inner.now }
    ensures within { IsWithin (length inner.now + 2) result }
{
    match pair_place(b'*', last, inner) {
        Some(place) => Cut::Skip(place + 4),
        None => Cut::Take(inner.len() + 2, open_kind),
    }
}

/// A comment that begins with `first` and goes on in `rest`, from `//` up to the end of its line or from `/*` up to its `*/`, if one
/// does. One that does not end is a token of the kind.
#[inline]
pub fn comment_at<K: Copy>(open_kind: K, first: u8, rest: &[u8]) -> Option<Cut<K>>
    requires { length rest.now < 2 ^ 32 }
    ensures value { result ≡ comment_at open_kind first rest.now }
    ensures within { IfSome result (IsWithin (length rest.now + 1)) }
{
    if first != b'/' {
        None
    } else if begins_with(b'/', rest) {
        Some(Cut::Skip(line_length(rest)))
    } else if begins_with(b'*', rest) {
        Some(comment_cut(b'/', open_kind, rest.split_at(1).1))
    } else {
        None
    }
}
