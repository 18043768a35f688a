//! Where the scan of a token or a comment stands that has begun and not ended, so that it can stop at any byte and go on later.
ghost use Rattle.std.specs.Prelude.{◌≡◌, ◌+◌, ◌<◌, ◌^◌, ◌++◌, ℕ, List, length};
ghost use Rattle.liberty_groups.specs.Tokens.{cut_at};
ghost use Rattle.liberty_groups.specs.Places.{scanned, ended, whole, IsOpenWithin};
ghost use Rattle.liberty_groups.specs.Scanning.{begun, behind, word_behind};

use crate::scan::{Kind, goes_on, is_plain, mark_of, opened_behind};
use token_texts::{Cut, Escape, is_blank, takes};

/// Where the scan of some bytes stands that begin a token or a comment and do not end it.
#[derive(Clone, Copy)]
pub enum Place {
    /// In a word, of which so many `[` are not closed.
    Word(usize),

    /// The same, behind a slash: if a comment begins with that, the word ends before it.
    SlashInWord(usize),

    /// Behind a slash alone, with which a comment or a word begins.
    Slash,

    /// In a text in quotes, behind a backslash or not.
    Quoted(bool),
    LineComment,

    /// In a comment that `*/` ends, behind a star or not.
    BlockComment(bool),

    /// Behind a backslash outside texts and the blanks that follow it.
    Backslash,
}

/// What a scan of some bytes has shown.
#[derive(Clone, Copy)]
pub enum Scanned {
    /// What stands at their front, whatever comes behind them.
    Ended(Cut<Kind>),

    /// They begin no token: what no text of the grammar has takes all that comes.
    Bad,
    Begun(Place),
}

/// What one byte shows, as the first.
pub(crate) fn begun(first: u8) -> Scanned
    ensures value { result ≡ begun first }
    ensures within { IsOpenWithin 1 result }
{
    if is_blank(first) {
        Scanned::Ended(Cut::Skip(1))
    } else if first == b'"' {
        Scanned::Begun(Place::Quoted(false))
    } else if first == b'\\' {
        Scanned::Begun(Place::Backslash)
    } else if first == b'/' {
        Scanned::Begun(Place::Slash)
    } else if let Some(kind) = mark_of(first) {
        Scanned::Ended(Cut::Take(1, kind))
    } else if is_plain(first) {
        Scanned::Begun(Place::Word(opened_behind(0, first)))
    } else {
        Scanned::Bad
    }
}

/// What a byte shows behind so many bytes of a word, of which so many `[` are not closed.
fn word_behind(opened: usize, count: usize, byte: u8) -> Scanned
    requires { opened < 2 ^ 32 }
    ensures value { result ≡ word_behind opened count byte }
    ensures within { IsOpenWithin (opened + 1) result }
{
    if !goes_on(opened, byte, &[]) {
        Scanned::Ended(Cut::Take(count, Kind::Word))
    } else if byte == b'/' {
        Scanned::Begun(Place::SlashInWord(opened))
    } else {
        Scanned::Begun(Place::Word(opened_behind(opened, byte)))
    }
}

/// What a byte shows behind so many others that have led to a place.
fn behind(place: Place, count: usize, byte: u8) -> Scanned
    requires count { 0 < count × count < 2 ^ 32 }
    requires within { IsOpenWithin count (Scanned.Begun place) }
    ensures value { result ≡ behind place count byte }
    ensures within { IsOpenWithin (count + 1) result }
{
    match place {
        Place::Word(opened) => word_behind(opened, count, byte),
        Place::SlashInWord(opened) => {
            if byte == b'/' || byte == b'*' {
                Scanned::Ended(Cut::Take(count - 1, Kind::Word))
            } else {
                word_behind(opened, count, byte)
            }
        }
        Place::Slash => match byte {
            b'/' => Scanned::Begun(Place::LineComment),
            b'*' => Scanned::Begun(Place::BlockComment(false)),
            _ => word_behind(0, count, byte),
        },
        Place::Quoted(is_taken) => {
            if byte == b'"' && !is_taken {
                Scanned::Ended(Cut::Take(count + 1, Kind::Quoted))
            } else {
                Scanned::Begun(Place::Quoted(takes(Escape::NextQuote, byte, is_taken)))
            }
        }
        Place::LineComment => {
            if byte == b'\n' {
                Scanned::Ended(Cut::Skip(count))
            } else {
                Scanned::Begun(Place::LineComment)
            }
        }
        Place::BlockComment(is_starred) => {
            if byte == b'/' && is_starred {
                Scanned::Ended(Cut::Skip(count + 1))
            } else {
                Scanned::Begun(Place::BlockComment(byte == b'*'))
            }
        }
        Place::Backslash => match byte {
            9 | 13 | 32 => Scanned::Begun(Place::Backslash),
            b'\n' => Scanned::Ended(Cut::Skip(count + 1)),
            _ => Scanned::Bad,
        },
    }
}

/// What a scan shows that goes on with these bytes, behind so many others.
pub(crate) fn scan_on(scan: Scanned, count: usize, bytes: &[u8]) -> Scanned
    requires count { 0 < count × count + length bytes.now < 2 ^ 32 }
    requires within { IsOpenWithin count scan }
    ensures value { (more : List ℕ) → scanned scan count (bytes.now ++ more) ≡ scanned result (count + length bytes.now) more }
    ensures within { IsOpenWithin (count + length bytes.now) result }
{
    let mut now = scan;
    let mut passed = count;
    for byte in bytes {
        match now {
            Scanned::Begun(place) => now = behind(place, passed, *byte),
            end => return end,
        }
        passed += 1;
    }
    now
}

/// What some bytes show from the first on.
pub(crate) fn scan_front(first: u8, behind: &[u8]) -> Scanned
    requires { length behind.now + 1 < 2 ^ 32 }
    ensures value { (more : List ℕ) → cut_at first (behind.now ++ more) ≡ scanned result (1 + length behind.now) more }
    ensures within { IsOpenWithin (1 + length behind.now) result }
{
    scan_on(begun(first), 1, behind)
}

/// What bytes are that have led to a place, where nothing comes behind them: a token of this kind, or passed over.
pub(crate) fn ended(place: Place) -> Option<Kind>
    ensures { result ≡ ended place }
{
    match place {
        Place::Word(_) | Place::SlashInWord(_) | Place::Slash => Some(Kind::Word),
        Place::Quoted(_) => Some(Kind::OpenQuoted),
        Place::LineComment => None,
        Place::BlockComment(_) => Some(Kind::OpenNote),
        Place::Backslash => Some(Kind::Bad),
    }
}

/// So many bytes, passed over or a token of this kind.
pub(crate) fn whole(count: usize, kind: Option<Kind>) -> Cut<Kind>
    ensures { result ≡ whole count kind }
{
    match kind {
        Some(kind) => Cut::Take(count, kind),
        None => Cut::Skip(count),
    }
}
