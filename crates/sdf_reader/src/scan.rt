//! Parts a file's bytes into tokens.
ghost use Rattle.std.specs.Prelude.{◌≡◌, ◌^◌, ◌<◌, ◌∷◌, length};
ghost use Rattle.sdf_reader.specs.Tokens.{is_plain, word_length, word_cut, cut_at};
ghost use Rattle.token_texts.specs.Cuts.{IsWithin};

use token_texts::{ByteClass, Cut, Escape, comment_at, escaped_run_length, is_blank, quoted_cut};

/// What a token is.
#[derive(Clone, Copy)]
pub enum Kind {
    LeftParen,
    RightParen,
    Word,

    /// A text in quotes.
    Quoted,

    /// What no text of the grammar has: a byte that begins no token, a text and a comment that do not end.
    Bad,
    OpenQuoted,
    OpenNote,
}

/// The bytes that a word goes on with, whatever stands before it and behind it: those from 33 on that are no parenthesis, quote
/// or backslash.
struct PlainBytes;

impl ByteClass for PlainBytes {
    ghost is_in = { is_plain };

    #[inline]
    fn has(byte: u8) -> bool {
        byte >= 33 && !matches!(byte, b'(' | b')' | b'"' | b'\\')
    }
}

/// A word, or a byte that begins no token.
#[inline]
fn word_cut(bytes: &[u8]) -> Cut<Kind>
    requires some { 0 < length bytes.now }
    ensures value { result ≡ word_cut bytes.now (word_length bytes.now) }
    ensures within { IsWithin (length bytes.now) result }
{
    let length = escaped_run_length::<PlainBytes>(bytes);
    if length > 0 {
        Cut::Take(length, Kind::Word)
    } else {
        Cut::Take(bytes.len(), Kind::Bad)
    }
}

/// What stands at the front of the bytes, which are `first` and `rest`.
#[inline]
pub(crate) fn cut_at(bytes: &[u8], first: u8, rest: &[u8]) -> Cut<Kind>
    requires parts { bytes.now ≡ first ∷ rest.now }
    requires bytes { length bytes.now < 2 ^ 32 }
    ensures value { result ≡ cut_at first rest.now }
    ensures within { IsWithin (length bytes.now) result }
{
    if is_blank(first) {
        Cut::Skip(1)
    } else if first == b'(' {
        Cut::Take(1, Kind::LeftParen)
    } else if first == b')' {
        Cut::Take(1, Kind::RightParen)
    } else if first == b'"' {
        quoted_cut(Escape::NextByte, Kind::Quoted, Kind::OpenQuoted, rest)
    } else if let Some(comment) = comment_at(Kind::OpenNote, first, rest) {
        comment
    } else {
        word_cut(bytes)
    }
}
