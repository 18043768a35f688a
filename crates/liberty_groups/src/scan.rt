//! Parts a file's bytes into tokens.
ghost use Rattle.std.specs.Prelude.{◌≡◌, ◌+◌, ◌^◌, ◌<◌, ◌≤◌, length, position};
ghost use Rattle.liberty_groups.specs.Tokens.{ends_gap, continuation, mark_of, is_mark, is_plain, begins_comment, goes_on, opened_behind, word_length, backslash_cut, cut_at, breaks};
ghost use Rattle.liberty_groups.specs.Cuts.{word_cut, is_simple, is_behind_backslash};
ghost use Rattle.token_texts.specs.Cuts.{IsWithin};
ghost use Rattle.token_texts.specs.Quoted.{quoted_cut};

use memchr::memchr;
use token_texts::{Cut, Escape, begins_with, comment_at, is_blank, quoted_cut};

/// What a token is.
#[derive(Clone, Copy)]
pub enum Kind {
    Word,

    /// A text in quotes.
    Quoted,
    LeftParen,
    RightParen,
    LeftBrace,
    RightBrace,
    Colon,
    Semicolon,
    Comma,

    /// What no text of the grammar has: a byte that begins no token, a text and a comment that do not end.
    Bad,
    OpenQuoted,
    OpenNote,
}

/// The place of the first byte that may not stand in a continuation before its line end.
fn gap_end(rest: &[u8]) -> Option<usize>
    ensures { result ≡ position ends_gap rest.now }
{
    rest.iter()
        .position(|byte| !(*byte == 9 || *byte == 13 || *byte == 32))
}

/// Behind a backslash: how many bytes belong to a continuation, or 0, where it begins none.
pub(crate) fn continuation(rest: &[u8]) -> usize
    ensures value { result ≡ continuation rest.now }
    ensures within { result ≤ length rest.now }
{
    match gap_end(rest) {
        Some(place) if rest[place] == b'\n' => place + 1,
        _ => 0,
    }
}

/// The kind of a mark.
#[inline]
pub(crate) fn mark_of(byte: u8) -> Option<Kind>
    ensures { result ≡ mark_of byte }
{
    match byte {
        b'(' => Some(Kind::LeftParen),
        b')' => Some(Kind::RightParen),
        b'{' => Some(Kind::LeftBrace),
        b'}' => Some(Kind::RightBrace),
        b':' => Some(Kind::Colon),
        b';' => Some(Kind::Semicolon),
        b',' => Some(Kind::Comma),
        _ => None,
    }
}

#[inline]
fn is_mark(byte: u8) -> bool
    ensures { result ≡ is_mark byte }
{
    matches!(byte, b'(' | b')' | b'{' | b'}' | b':' | b';' | b',')
}

/// The bytes 33 to 126 but a quote and a backslash.
#[inline]
pub(crate) fn is_plain(byte: u8) -> bool
    ensures { result ≡ is_plain byte }
{
    byte >= 33 && byte <= 126 && !(byte == b'"') && !(byte == b'\\')
}

// Each byte that a word goes on with, whatever stands before and behind it, stands at its own place, and a comma at every
// other place. A look-up takes no branch, where the tests of the ranges would take some that cannot be foretold.
static SIMPLE_BYTES: [u8; 256] = *b"\
    ,,,,,,,,,,,,,,,,,,,,,,,,,,,,,,,,\
    ,!,#$%&',,*+,-.,0123456789,,<=>?\
    @ABCDEFGHIJKLMNOPQRSTUVWXYZ,,,^_\
    `abcdefghijklmnopqrstuvwxyz,|,~,\
    ,,,,,,,,,,,,,,,,,,,,,,,,,,,,,,,,\
    ,,,,,,,,,,,,,,,,,,,,,,,,,,,,,,,,\
    ,,,,,,,,,,,,,,,,,,,,,,,,,,,,,,,,\
    ,,,,,,,,,,,,,,,,,,,,,,,,,,,,,,,,";

/// Whether a word goes on with this byte, whatever stands before and behind it, and has as many `[` open behind it.
#[inline]
fn is_simple(byte: u8) -> bool
    ensures { result ≡ is_simple byte }
{
    SIMPLE_BYTES[byte as usize] != b','
}

/// Whether a comment begins with this byte and those behind it.
#[inline]
fn begins_comment(byte: u8, rest: &[u8]) -> bool
    ensures { result ≡ begins_comment byte rest.now }
{
    byte == b'/' && (begins_with(b'*', rest) || begins_with(b'/', rest))
}

/// Whether a word goes on with this byte, where so many `[` are not closed.
#[inline]
pub(crate) fn goes_on(opened: usize, byte: u8, rest: &[u8]) -> bool
    ensures { result ≡ goes_on opened byte rest.now }
{
    is_plain(byte) && !begins_comment(byte, rest) && (!is_mark(byte) || byte == b':' && opened > 0)
}

/// How many `[` are not closed behind this byte.
#[inline]
pub(crate) fn opened_behind(opened: usize, byte: u8) -> usize
    requires { opened < 2 ^ 33 }
    ensures { result ≡ opened_behind opened byte }
{
    if byte == b'[' {
        opened + 1
    } else if byte == b']' {
        opened.saturating_sub(1)
    } else {
        opened
    }
}

/// How many bytes the rest of a word has in which so many `[` are not closed.
#[inline]
fn word_length(opened: usize, bytes: &[u8]) -> usize
    requires opened { opened ≤ 1 }
    requires bytes { length bytes.now < 2 ^ 32 }
    ensures value { result ≡ word_length opened bytes.now }
    ensures within { result ≤ length bytes.now }
{
    let mut unclosed = opened;
    let mut place = 0;
    while place < bytes.len() {
        let byte = bytes[place];
        if !is_simple(byte) {
            if !goes_on(unclosed, byte, bytes.split_at(place + 1).1) {
                break;
            }
            unclosed = opened_behind(unclosed, byte);
        }
        place += 1;
    }
    place
}

/// Behind a backslash outside texts: a continuation, or a byte that begins no token.
fn backslash_cut(rest: &[u8]) -> Cut<Kind>
    requires { length rest.now < 2 ^ 32 }
    ensures value { result ≡ backslash_cut rest.now (continuation rest.now) }
    ensures within { IsWithin (length rest.now + 1) result }
{
    let length = continuation(rest);
    if length > 0 {
        Cut::Skip(length + 1)
    } else {
        Cut::Take(rest.len() + 1, Kind::Bad)
    }
}

/// A word, or a byte that begins no token.
#[inline]
fn word_cut(first: u8, rest: &[u8]) -> Cut<Kind>
    requires { length rest.now < 2 ^ 32 }
    ensures value { result ≡ word_cut first rest.now }
    ensures within { IsWithin (length rest.now + 1) result }
{
    if is_plain(first) {
        let opened = opened_behind(0, first);
        Cut::Take(word_length(opened, rest) + 1, Kind::Word)
    } else {
        Cut::Take(rest.len() + 1, Kind::Bad)
    }
}

/// Whether a backslash stands right before this place.
#[inline]
fn is_behind_backslash(bytes: &[u8], place: usize) -> bool
    requires { place ≤ length bytes.now }
    ensures { result ≡ is_behind_backslash bytes.now place }
{
    place > 0 && bytes[place - 1] == b'\\'
}

/// Behind a quote: a text, or a token that takes all. Most texts end at the first quote, which is found many bytes at a time.
#[inline]
fn text_cut(rest: &[u8]) -> Cut<Kind>
    requires { length rest.now < 2 ^ 32 }
    ensures value { result ≡ quoted_cut Escape.NextQuote Kind.Quoted Kind.OpenQuoted rest.now }
    ensures within { IsWithin (length rest.now + 1) result }
{
    match memchr(b'"', rest) {
        Some(place) if !is_behind_backslash(rest, place) => Cut::Take(place + 2, Kind::Quoted),
        _ => quoted_cut(Escape::NextQuote, Kind::Quoted, Kind::OpenQuoted, rest),
    }
}

/// What stands at the front of `first` and `rest`. Words come first, since they are told by one look-up.
#[inline]
pub(crate) fn cut_at(first: u8, rest: &[u8]) -> Cut<Kind>
    requires { length rest.now < 2 ^ 32 }
    ensures value { result ≡ cut_at first rest.now }
    ensures within { IsWithin (length rest.now + 1) result }
{
    if is_simple(first) {
        Cut::Take(word_length(0, rest) + 1, Kind::Word)
    } else if is_blank(first) {
        Cut::Skip(1)
    } else if first == b'"' {
        text_cut(rest)
    } else if first == b'\\' {
        backslash_cut(rest)
    } else if let Some(comment) = comment_at(Kind::OpenNote, first, rest) {
        comment
    } else if let Some(kind) = mark_of(first) {
        Cut::Take(1, kind)
    } else {
        word_cut(first, rest)
    }
}

/// Whether a line end that is no continuation's stands in bytes that are passed over.
#[inline]
pub(crate) fn breaks(passed: &[u8]) -> bool
    ensures { result ≡ breaks passed.now }
{
    match passed {
        // Blanks are passed over one by one.
        [byte] => *byte == b'\n',
        _ => !begins_with(b'\\', passed) && passed.contains(&b'\n'),
    }
}
