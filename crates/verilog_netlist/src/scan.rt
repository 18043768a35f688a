//! Parts a file's bytes into tokens.
ghost use Rattle.std.specs.Prelude.{◌≡◌, ℕ, ◌+◌, ◌^◌, ◌<◌, ◌≤◌, ◌∷◌, min, List, length, IfSome, IfNone};
ghost use Rattle.verilog_netlist.specs.Tokens.{is_digit, begins_name, goes_on_name, is_visible, is_constant_digit, is_sign, is_base, based_length, signed_length, and_before, constant_length, past_bounds, value_after, bound_of, word_cut, number_cut, ends_escaped, escaped_cut, slash_cut, paren_cut, mark_kind, cut_at};
ghost use Rattle.token_texts.specs.Cuts.{IsWithin};
ghost use Rattle.verilog_netlist.specs.Ranges.{constant_width, distance, digits_at};
ghost use Rattle.verilog_netlist.specs.declared.kinds.Kind.TheVariants.{Bad};
ghost use Rattle.token_texts.specs.declared.cuts.Cut.TheVariants.{Take};

use crate::kinds::Kind;
use crate::words::word_kind;
use token_texts::{
    ByteClass, Cut, begins_with, comment_at, comment_cut, is_blank, line_length, run_length,
};

/// Any number past the bounds of ranges and selects counts as this.
const PAST_BOUNDS: u32 = 1_048_576;

#[inline]
fn is_digit(byte: u8) -> bool
    ensures { result ≡ is_digit byte }
{
    matches!(byte, b'0'..=b'9')
}

/// A letter or `_`.
#[inline]
fn begins_name(byte: u8) -> bool
    ensures { result ≡ begins_name byte }
{
    matches!(byte, b'a'..=b'z' | b'A'..=b'Z' | b'_')
}

// Each letter, each digit, `_` and `$` stands at its own place, and a comma at every other place. A look-up takes no branch, where
// the tests of the ranges would take some that cannot be foretold.
static NAME_BYTES: [u8; 256] = *b"\
    ,,,,,,,,,,,,,,,,,,,,,,,,,,,,,,,,\
    ,,,,$,,,,,,,,,,,0123456789,,,,,,\
    ,ABCDEFGHIJKLMNOPQRSTUVWXYZ,,,,_\
    ,abcdefghijklmnopqrstuvwxyz,,,,,\
    ,,,,,,,,,,,,,,,,,,,,,,,,,,,,,,,,\
    ,,,,,,,,,,,,,,,,,,,,,,,,,,,,,,,,\
    ,,,,,,,,,,,,,,,,,,,,,,,,,,,,,,,,\
    ,,,,,,,,,,,,,,,,,,,,,,,,,,,,,,,,";

/// What an identifier goes on with: letters, digits, `_` and `$`.
pub struct InName;

impl ByteClass for InName {
    ghost is_in = { goes_on_name };

    #[inline]
    fn has(byte: u8) -> bool
        ensures { result ≡ goes_on_name byte }
    {
        NAME_BYTES[byte as usize] != b','
    }
}

/// The bytes of an escaped identifier, 33 to 126.
pub struct Visible;

impl ByteClass for Visible {
    ghost is_in = { is_visible };

    #[inline]
    fn has(byte: u8) -> bool
        ensures { result ≡ is_visible byte }
    {
        matches!(byte, 33..=126)
    }
}

/// Decimal digits.
pub struct Digit;

impl ByteClass for Digit {
    ghost is_in = { is_digit };

    #[inline]
    fn has(byte: u8) -> bool
        ensures { result ≡ is_digit byte }
    {
        is_digit(byte)
    }
}

/// The digits of a constant: those of any base, and `x X z Z ? _`.
pub struct ConstantDigit;

impl ByteClass for ConstantDigit {
    ghost is_in = { is_constant_digit };

    #[inline]
    fn has(byte: u8) -> bool
        ensures { result ≡ is_constant_digit byte }
    {
        matches!(byte, b'0'..=b'9' | b'a'..=b'f' | b'A'..=b'F' | b'x' | b'X' | b'z' | b'Z' | b'?' | b'_')
    }
}

/// `s` or `S`.
fn is_sign(byte: u8) -> bool
    ensures { result ≡ is_sign byte }
{
    matches!(byte, b's' | b'S')
}

/// One of `b B o O d D h H`.
fn is_base(byte: u8) -> bool
    ensures { result ≡ is_base byte }
{
    matches!(byte, b'b' | b'B' | b'o' | b'O' | b'd' | b'D' | b'h' | b'H')
}

/// So many bytes and `n` before them, or none where there are none.
fn and_before(n: usize, length: usize) -> usize
    requires { n + length < 2 ^ 33 }
    ensures { result ≡ and_before n length }
{
    if length == 0 { 0 } else { length + n }
}

/// How many bytes at the front are a base and at least one digit of a constant, or 0.
fn based_length(bytes: &[u8]) -> usize
    requires { length bytes.now < 2 ^ 32 }
    ensures value { result ≡ based_length bytes.now }
    ensures within { result ≤ length bytes.now }
{
    match bytes {
        [byte, rest @ ..] if is_base(*byte) => and_before(1, run_length::<ConstantDigit>(rest)),
        _ => 0,
    }
}

/// The same with a sign before them, or none.
fn signed_length(bytes: &[u8]) -> usize
    requires { length bytes.now < 2 ^ 32 }
    ensures value { result ≡ signed_length bytes.now }
    ensures within { result ≤ length bytes.now }
{
    match bytes {
        [byte, rest @ ..] if is_sign(*byte) => and_before(1, based_length(rest)),
        _ => based_length(bytes),
    }
}

/// Behind the digits of a width: how many bytes at the front are the rest of a constant, or 0.
#[tactic(auto, unfolding(crate::specs::Tokens::constant_length))]
fn constant_length(bytes: &[u8]) -> usize
    requires { length bytes.now < 2 ^ 32 }
    ensures value { result ≡ constant_length bytes.now }
    ensures within { result ≤ length bytes.now }
{
    match bytes {
        [byte, rest @ ..] if *byte == b'\'' => and_before(1, signed_length(rest)),
        _ => 0,
    }
}

/// The value of decimal digits, or one past the largest bound where it is more than that.
fn bound_of(digits: &[u8]) -> u32
    ensures { result ≡ bound_of digits.now }
{
    let mut value = 0;
    for digit in digits {
        value = (value * 10 + u32::from(digit.saturating_sub(b'0'))).min(PAST_BOUNDS);
    }
    value
}

/// How far two numbers are from each other, or one past the largest bound where that is farther. The first has as many digits as the
/// other, or more.
pub(crate) fn distance(longer: &[u8], shorter: &[u8]) -> u32
    requires { length shorter.now ≤ length longer.now }
    ensures { result ≡ min past_bounds (distance (value_after 0 longer.now) (value_after 0 shorter.now)) }
{
    let (front, rest) = longer.split_at(longer.len() - shorter.len());
    let mut above = bound_of(front);
    let mut below = 0;
    for (place, digit) in shorter.iter().enumerate() {
        let one = above * 10 + u32::from(rest[place].saturating_sub(b'0'));
        let other = below * 10 + u32::from(digit.saturating_sub(b'0'));
        above = one.saturating_sub(other).min(PAST_BOUNDS);
        below = other.saturating_sub(one).min(PAST_BOUNDS);
    }
    above.max(below)
}

/// The digits that begin at a place of the file.
pub(crate) fn digits_at(bytes: &[u8], place: u32) -> &[u8]
    ensures { result.now ≡ digits_at bytes.now place }
{
    let from = bytes.split_at((place as usize).min(bytes.len())).1;
    from.split_at(run_length::<Digit>(from)).0
}

/// The width of a constant: the digits at its front.
pub(crate) fn constant_width(text: &[u8]) -> u32
    ensures { result ≡ constant_width text.now }
{
    let digits = run_length::<Digit>(text);
    bound_of(text.split_at(digits).0)
}

/// An identifier, or a reserved word.
#[inline]
fn word_cut(bytes: &[u8]) -> Cut<Kind>
    ensures { result ≡ word_cut bytes.now }
{
    let length = run_length::<InName>(bytes);
    Cut::Take(length, word_kind(bytes.split_at(length).0))
}

/// A number, or a constant.
fn number_cut(bytes: &[u8]) -> Cut<Kind>
    requires { length bytes.now < 2 ^ 32 }
    ensures { result ≡ number_cut bytes.now }
{
    let length = run_length::<Digit>(bytes);
    let (digits, behind) = bytes.split_at(length);
    let more = constant_length(behind);
    if more == 0 {
        Cut::Take(length, Kind::Number(bound_of(digits)))
    } else {
        Cut::Take(length + more, Kind::Constant)
    }
}

/// Whether a blank stands at the front, or nothing.
fn ends_escaped(bytes: &[u8]) -> bool
    ensures { result ≡ ends_escaped bytes.now }
{
    match bytes {
        [] => true,
        [byte, ..] => is_blank(*byte),
    }
}

/// Behind a backslash: an escaped identifier, or a byte that begins no token.
fn escaped_cut(rest: &[u8]) -> Cut<Kind>
    requires { length rest.now < 2 ^ 32 }
    ensures { result ≡ escaped_cut rest.now }
{
    let length = run_length::<Visible>(rest);
    if length > 0 && ends_escaped(rest.split_at(length).1) {
        Cut::Take(length + 1, Kind::Name)
    } else {
        Cut::Take(1, Kind::Bad)
    }
}

/// Behind a slash: a comment, or a byte that begins no token.
fn slash_cut(rest: &[u8]) -> Cut<Kind>
    requires { length rest.now < 2 ^ 32 }
    ensures { result ≡ slash_cut rest.now }
{
    match comment_at(Kind::Bad, b'/', rest) {
        Some(cut) => cut,
        None => Cut::Take(1, Kind::Bad),
    }
}

/// Behind a `(`: an attribute, or the mark.
#[inline]
fn paren_cut(rest: &[u8]) -> Cut<Kind>
    requires { length rest.now < 2 ^ 32 }
    ensures { result ≡ paren_cut rest.now }
{
    if begins_with(b'*', rest) {
        comment_cut(b')', Kind::Bad, rest.split_at(1).1)
    } else {
        Cut::Take(1, Kind::LeftParen)
    }
}

/// What a mark is. No mark begins another token.
#[inline]
fn mark(byte: u8) -> Option<Kind>
    ensures some { IfSome result (λ kind. (rest : List ℕ) → cut_at byte rest ≡ Take 1 kind) }
    ensures none { IfNone result (mark_kind byte ≡ Bad) }
{
    match byte {
        b',' => Some(Kind::Comma),
        b')' => Some(Kind::RightParen),
        b'.' => Some(Kind::Dot),
        b';' => Some(Kind::Semicolon),
        b'[' => Some(Kind::LeftBracket),
        b']' => Some(Kind::RightBracket),
        b'{' => Some(Kind::LeftBrace),
        b'}' => Some(Kind::RightBrace),
        b':' => Some(Kind::Colon),
        _ => None,
    }
}

/// What stands at the front of the bytes, which are `first` and `rest`.
#[inline]
pub(crate) fn cut_at(bytes: &[u8], first: u8, rest: &[u8]) -> Cut<Kind>
    requires parts { bytes.now ≡ first ∷ rest.now }
    requires bytes { length bytes.now < 2 ^ 32 }
    ensures value { result ≡ cut_at first rest.now }
    ensures within { IsWithin (length bytes.now) result }
{
    // Most tokens are marks.
    if let Some(kind) = mark(first) {
        return Cut::Take(1, kind);
    }
    if first == b'(' {
        paren_cut(rest)
    } else if is_blank(first) {
        Cut::Skip(1)
    } else if begins_name(first) {
        word_cut(bytes)
    } else if is_digit(first) {
        number_cut(bytes)
    } else if first == b'\\' {
        escaped_cut(rest)
    } else if first == b'`' {
        Cut::Skip(line_length(rest))
    } else if first == b'/' {
        slash_cut(rest)
    } else {
        Cut::Take(1, Kind::Bad)
    }
}
