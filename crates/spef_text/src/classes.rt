//! The classes of one token: what it may stand for. A broken token is in none.
ghost use Rattle.std.specs.Prelude.{◌≡◌, IsTrue, ◌+◌, ◌^◌, ◌<◌, ◌≤◌, not, ◌&&◌, length, drop, position, bytes_eq};
ghost use Rattle.std.specs.List.{list_all, prefix_len};
ghost use Rattle.std.specs.Char.{is_ascii_digit};
ghost use Rattle.delay_units.specs.Literal.{without_leading_zeros};
ghost use Rattle.spef_text.specs.Tokens.{is_broken, is_nothing};
ghost use Rattle.spef_text.specs.Classes.{is_other, is_loose, marks, is_mark, is_two_marks, is_colon, are_two_literals, is_value_parted, is_value, is_id, is_index, is_tail, is_indexed, is_name, is_map_name, is_ref, is_direction, index_digits, holds_of, is_top, is_tight, word_of};
ghost use Rattle.delay_units.specs.Places.{is_literal};

use crate::broken::is_broken;
use crate::words::{Word, word_of};
use delay_units::{behind_literal, is_literal, strip};

/// A token that is no keyword of the head, as what stands behind `*DATE`.
#[tactic(auto, unfolding(crate::specs::Classes::is_other))]
pub fn is_other(text: &[u8]) -> bool
    ensures { result ≡ is_other text.now }
{
    !is_broken(text) && !is_top_text(text)
}

// A keyword of the file's head, or `*D_NET`, or one that is refused there.
fn is_top_text(text: &[u8]) -> bool
    ensures { result ≡ holds_of is_top (word_of text.now) }
{
    match word_of(text) {
        None => false,
        Some(Word::Induc | Word::Load | Word::Port | Word::Internal | Word::Node) => false,
        Some(Word::Conn | Word::Cap | Word::Res | Word::End | Word::Confidence) => false,
        Some(_) => true,
    }
}

/// A token, which is this keyword or none, that may stand in a connection behind what is read of it.
#[tactic(auto, unfolding(crate::specs::Classes::is_loose))]
pub fn is_loose(text: &[u8], word: Option<Word>) -> bool
    requires { word ≡ word_of text.now }
    ensures { result ≡ is_loose text.now }
{
    !is_broken(text) && matches!(word, None | Some(Word::Confidence))
}

/// A byte from 33 to 126 that is no letter, digit, `_`, `"`, `*` or backslash.
fn marks(byte: u8) -> bool
    ensures { result ≡ marks byte }
{
    33 <= byte
        && byte <= 126
        && !(byte.is_ascii_alphanumeric()
            || byte == b'_'
            || byte == b'"'
            || byte == b'*'
            || byte == b'\\')
}

/// A divider, a delimiter or a bus delimiter.
#[tactic(auto, unfolding(crate::specs::Classes::is_mark))]
pub fn is_mark(text: &[u8]) -> bool
    ensures { result ≡ is_mark text.now }
{
    match text {
        [byte] => marks(*byte),
        _ => false,
    }
}

/// Two bus delimiters in one token.
#[tactic(auto, unfolding(crate::specs::Classes::is_two_marks))]
pub fn is_two_marks(text: &[u8]) -> bool
    ensures { result ≡ is_two_marks text.now }
{
    match text {
        [left, right] => marks(*left) && marks(*right),
        _ => false,
    }
}

/// Two literals with a colon between them.
fn are_two_literals(text: &[u8]) -> bool
    ensures { result ≡ are_two_literals text.now (position is_colon text.now) }
{
    let Some(rest) = behind_literal(text) else {
        return false;
    };
    match strip(rest, b':') {
        Some(last) => is_literal(last),
        None => false,
    }
}

/// A literal, or three with colons between them. Each byte is looked at once: no literal has a colon, so the longest front that is one
/// ends before the colon.
#[inline(always)]
pub fn is_value(text: &[u8]) -> bool
    ensures { result ≡ is_value text.now }
{
    let Some(rest) = behind_literal(text) else {
        return false;
    };
    match strip(rest, b':') {
        Some(others) => are_two_literals(others),
        None => rest.is_empty(),
    }
}

fn are_digits(text: &[u8]) -> bool
    ensures { result ≡ list_all is_ascii_digit text.now }
{
    text.iter().all(|byte| byte.is_ascii_digit())
}

/// The number of a capacitance or a resistance: one or more digits.
#[tactic(auto, unfolding(crate::specs::Classes::is_id))]
pub fn is_id(text: &[u8]) -> bool
    ensures { result ≡ is_id text.now }
{
    !text.is_empty() && are_digits(text)
}

/// The index of a name: `*` and digits.
#[tactic(auto, unfolding(crate::specs::Classes::is_index))]
pub fn is_index(text: &[u8]) -> bool
    ensures { result ≡ is_index text.now }
{
    match text {
        [] => false,
        [first, rest @ ..] => *first == b'*' && is_id(rest),
    }
}

/// What may follow the digits of an index: nothing, or the delimiter and at least one byte.
fn is_tail(delimiter: u8, text: &[u8]) -> bool
    ensures { result ≡ is_tail delimiter text.now }
{
    match text {
        [] => true,
        [first, rest @ ..] => *first == delimiter && !rest.is_empty(),
    }
}

/// How many digits the text begins with.
fn digits_in_front(text: &[u8]) -> usize
    ensures value { result ≡ prefix_len is_ascii_digit text.now }
    ensures within { result ≤ length text.now }
{
    let mut count = 0;
    while count < text.len() && text[count].is_ascii_digit() {
        count += 1;
    }
    count
}

fn is_indexed(delimiter: u8, text: &[u8]) -> bool
    ensures { result ≡ is_indexed delimiter text.now }
{
    let digits = digits_in_front(text);
    0 < digits && is_tail(delimiter, text.split_at(digits).1)
}

/// A name, also one that an index stands for in the name map: neither `*` nor `"` begins it.
#[tactic(auto, unfolding(crate::specs::Classes::is_name))]
pub fn is_name(text: &[u8]) -> bool
    ensures { result ≡ is_name text.now }
{
    match text {
        [] => false,
        [first, ..] => *first != b'*' && *first != b'"' && !is_broken(text),
    }
}

/// A name that has not the form of a value. References are indices as a rule, so this stands by itself.
#[inline(never)]
fn is_plain_ref(text: &[u8]) -> bool
    ensures { result ≡ (is_name text.now && not (is_value text.now)) }
{
    is_name(text) && !is_value(text)
}

/// What names a net or a node: an index, an index with the delimiter and a tail, or a name that has not the form of a
/// value.
#[inline]
#[tactic(auto, unfolding(crate::specs::Classes::is_ref))]
pub fn is_ref(delimiter: u8, text: &[u8]) -> bool
    ensures { result ≡ is_ref delimiter text.now }
{
    match text {
        [] => false,
        [first, rest @ ..] => {
            if *first == b'*' {
                is_indexed(delimiter, rest)
            } else {
                is_plain_ref(text)
            }
        }
    }
}

/// `I`, `O` or `B`.
#[tactic(auto, unfolding(crate::specs::Classes::is_direction))]
pub fn is_direction(text: &[u8]) -> bool
    ensures { result ≡ is_direction text.now }
{
    match text {
        [byte] => matches!(*byte, b'I' | b'O' | b'B'),
        _ => false,
    }
}

/// The digits of an index without the zeros in front: two spellings of one index have the same.
pub fn index_digits(text: &[u8]) -> &[u8]
    ensures { result.now ≡ index_digits text.now }
{
    match text {
        [] => text,
        [_, digits @ ..] => without_leading_zeros(digits),
    }
}

fn without_leading_zeros(digits: &[u8]) -> &[u8]
    ensures { result.now ≡ without_leading_zeros digits.now }
{
    let mut rest = digits;
    while let [b'0', after @ ..] = rest {
        rest = after;
    }
    rest
}
