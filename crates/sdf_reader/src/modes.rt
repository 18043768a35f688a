//! What the reader waits for, and what becomes of it with each token.
ghost use Rattle.std.specs.Prelude.{◌≡◌, ◌+◌, ◌<◌, ◌^◌};
ghost use Rattle.sdf_reader.specs.Grammar.{is_retain};
ghost use Rattle.sdf_reader.specs.Steps.{class_of, go, pass, divide_by, scale_from, scale_at, stray_name, closes, depth_of, next_of};

use crate::scan::Kind;
use crate::timescales::{ScalePlace, Timescale};
use crate::words::{Keyword, keyword_of};

/// What an entry is.
#[derive(Clone, Copy)]
pub enum Shape {
    /// An IOPATH.
    Path,

    /// An INTERCONNECT.
    Wire,
}

/// Where a form stands that is passed over.
#[derive(Clone, Copy)]
pub enum Site {
    /// Among the heads of the file.
    Heads,

    /// In a cell.
    Specs,

    /// In a DELAY.
    Delays,

    /// In an ABSOLUTE.
    Entries,
}

/// What is waited for.
#[derive(Clone, Copy)]
pub enum Mode {
    /// The `(` of the file, and its keyword.
    Start,
    FileWord,

    /// A head, the first cell or the end, and the keyword of one.
    Heads,
    HeadWord,

    /// The design's name or the `)` behind it, the divider, the first word of a timescale, and what follows that.
    DesignText,
    DividerWord,
    ScaleWord,
    ScaleMore(ScalePlace),

    /// The `)` of a head.
    HeadEnd,

    /// Of a cell its type, piece by piece, and its instance.
    TypeOpen,
    TypeWord,
    TypeText,
    TypeEnd,
    InstanceOpen,
    InstanceWord,
    InstanceName,
    InstanceEnd,

    /// A form of a cell or the cell's `)`, and the keyword of one; the same of a DELAY, and of an ABSOLUTE.
    Specs,
    SpecWord,
    Delays,
    DelayWord,
    Entries,
    EntryWord,

    /// Both names of an entry.
    From(Shape),
    To(Shape),

    /// The `(` of the first value, what is in a value, its `)`, and the next value or the entry's `)`.
    FirstValue(Shape),
    Number(Shape),
    NumberEnd(Shape),
    Values(Shape),

    /// What is in a form that is passed over, in which so many others are open, and its `)`.
    Over(Site, usize),

    /// A cell or the end behind a cell, and the keyword of one.
    Cells,
    CellWord,

    /// The end of the file.
    End,
}

/// What is done with a token, beside that something else is waited for.
#[derive(Clone, Copy)]
pub enum Action {
    Nothing,

    /// It is the divider, or ends the words of a timescale.
    Divide(u8),
    Rescale(Timescale),

    /// It is the type of a cell, or its instance, or shows that the instance is left out.
    SetType,
    Instance,
    NoInstance,

    /// It is the keyword of an entry, or one of its names.
    Begin,
    From,
    To,

    /// It ends a value without a number, or is the number of a value.
    Empty,
    Number,

    /// It ends an entry, which is a row.
    Row(Shape),
}

/// Something else is waited for, and no more is done.
fn go(mode: Mode) -> Option<(Mode, Action)>
    ensures { result ≡ go mode }
{
    Some((mode, Action::Nothing))
}

/// A form is passed over, in which so many others are open.
fn pass(site: Site, depth: usize) -> Option<(Mode, Action)>
    ensures { result ≡ pass site depth }
{
    go(Mode::Over(site, depth))
}

/// The bytes of a divider, which is `/` or `.`.
fn divide_by(bytes: &[u8]) -> Option<(Mode, Action)>
    ensures { result ≡ divide_by bytes.now }
{
    match bytes {
        [byte] => {
            if *byte == b'/' || *byte == b'.' {
                Some((Mode::HeadEnd, Action::Divide(*byte)))
            } else {
                None
            }
        }
        _ => None,
    }
}

/// The place behind the first word of a timescale.
fn scale_from(place: Option<ScalePlace>) -> Option<(Mode, Action)>
    ensures { result ≡ scale_from place }
{
    match place {
        Some(place) => go(Mode::ScaleMore(place)),
        None => None,
    }
}

/// The place behind the words of a timescale, which has to be their end.
fn scale_at(behind: Mode, place: Option<ScalePlace>) -> Option<(Mode, Action)>
    ensures { result ≡ scale_at behind place }
{
    match place {
        Some(ScalePlace::Done(scale)) => Some((behind, Action::Rescale(scale))),
        _ => None,
    }
}

/// In the place of a name a `(` shows that an IOPATH is passed over.
fn stray_name(shape: Shape) -> Option<(Mode, Action)>
    ensures { result ≡ stray_name shape }
{
    match shape {
        Shape::Path => pass(Site::Entries, 1),
        Shape::Wire => None,
    }
}

/// Whether a word is RETAIN in an IOPATH, which shows that the entry is passed over.
fn is_retain(shape: Shape, keyword: Option<Keyword>) -> bool
    ensures { result ≡ is_retain shape keyword }
{
    match shape {
        Shape::Path => matches!(keyword, Some(Keyword::Retain)),
        Shape::Wire => false,
    }
}

/// A `)` in a form that is passed over ends one of the others, or that form.
fn closes(site: Site, depth: usize) -> Option<(Mode, Action)>
    ensures { result ≡ closes site depth }
{
    if depth > 0 {
        return pass(site, depth - 1);
    }
    match site {
        Site::Heads => go(Mode::Heads),
        Site::Specs => go(Mode::Specs),
        Site::Delays => go(Mode::Delays),
        Site::Entries => go(Mode::Entries),
    }
}

impl Mode {
    /// What is waited for behind a token of this kind and of these bytes, and what is done with it: none where it cannot stand.
    pub fn next(self, kind: Kind, bytes: &[u8]) -> Option<(Mode, Action)>
        requires deep { depth_of self + 1 < 2 ^ 64 }
        ensures { result ≡ next_of self (class_of kind bytes.now) bytes.now }
    {
        match self {
            Mode::Start => match kind {
                Kind::LeftParen => go(Mode::FileWord),
                _ => None,
            },
            Mode::FileWord => match kind {
                Kind::Word => match keyword_of(bytes) {
                    Some(Keyword::DelayFile) => go(Mode::Heads),
                    _ => None,
                },
                _ => None,
            },
            Mode::Heads => match kind {
                Kind::LeftParen => go(Mode::HeadWord),
                Kind::RightParen => go(Mode::End),
                _ => None,
            },
            Mode::HeadWord => match kind {
                Kind::Word => match keyword_of(bytes) {
                    Some(Keyword::Design) => go(Mode::DesignText),
                    Some(Keyword::Divider) => go(Mode::DividerWord),
                    Some(Keyword::Timescale) => go(Mode::ScaleWord),
                    Some(Keyword::Cell) => go(Mode::TypeOpen),
                    _ => pass(Site::Heads, 0),
                },
                _ => None,
            },
            Mode::DesignText => match kind {
                Kind::Quoted => go(Mode::HeadEnd),
                Kind::RightParen => go(Mode::Heads),
                _ => None,
            },
            Mode::DividerWord => match kind {
                Kind::Word => divide_by(bytes),
                _ => None,
            },
            Mode::ScaleWord => match kind {
                Kind::Word => scale_from(ScalePlace::Start.behind(bytes)),
                _ => None,
            },
            Mode::ScaleMore(place) => match kind {
                Kind::RightParen => scale_at(Mode::Heads, Some(place)),
                Kind::Word => scale_at(Mode::HeadEnd, place.behind(bytes)),
                _ => None,
            },
            Mode::HeadEnd => match kind {
                Kind::RightParen => go(Mode::Heads),
                _ => None,
            },
            Mode::TypeOpen => match kind {
                Kind::LeftParen => go(Mode::TypeWord),
                _ => None,
            },
            Mode::TypeWord => match kind {
                Kind::Word => match keyword_of(bytes) {
                    Some(Keyword::CellType) => go(Mode::TypeText),
                    _ => None,
                },
                _ => None,
            },
            Mode::TypeText => match kind {
                Kind::Quoted => Some((Mode::TypeEnd, Action::SetType)),
                _ => None,
            },
            Mode::TypeEnd => match kind {
                Kind::RightParen => go(Mode::InstanceOpen),
                _ => None,
            },
            Mode::InstanceOpen => match kind {
                Kind::LeftParen => go(Mode::InstanceWord),
                _ => None,
            },
            Mode::InstanceWord => match kind {
                Kind::Word => match keyword_of(bytes) {
                    Some(Keyword::Instance) => go(Mode::InstanceName),
                    _ => None,
                },
                _ => None,
            },
            Mode::InstanceName => match kind {
                Kind::Word => Some((Mode::InstanceEnd, Action::Instance)),
                Kind::RightParen => Some((Mode::Specs, Action::NoInstance)),
                _ => None,
            },
            Mode::InstanceEnd => match kind {
                Kind::RightParen => go(Mode::Specs),
                _ => None,
            },
            Mode::Specs => match kind {
                Kind::LeftParen => go(Mode::SpecWord),
                Kind::RightParen => go(Mode::Cells),
                _ => None,
            },
            Mode::SpecWord => match kind {
                Kind::Word => match keyword_of(bytes) {
                    Some(Keyword::Delay) => go(Mode::Delays),
                    Some(Keyword::Absolute) => None,
                    _ => pass(Site::Specs, 0),
                },
                _ => None,
            },
            Mode::Delays => match kind {
                Kind::LeftParen => go(Mode::DelayWord),
                Kind::RightParen => go(Mode::Specs),
                _ => None,
            },
            Mode::DelayWord => match kind {
                Kind::Word => match keyword_of(bytes) {
                    Some(Keyword::Absolute) => go(Mode::Entries),
                    Some(Keyword::Delay) => None,
                    _ => pass(Site::Delays, 0),
                },
                _ => None,
            },
            Mode::Entries => match kind {
                Kind::LeftParen => go(Mode::EntryWord),
                Kind::RightParen => go(Mode::Delays),
                _ => None,
            },
            Mode::EntryWord => match kind {
                Kind::Word => match keyword_of(bytes) {
                    Some(Keyword::IoPath) => Some((Mode::From(Shape::Path), Action::Begin)),
                    Some(Keyword::Interconnect) => Some((Mode::From(Shape::Wire), Action::Begin)),
                    _ => pass(Site::Entries, 0),
                },
                _ => None,
            },
            Mode::From(shape) => match kind {
                Kind::Word => Some((Mode::To(shape), Action::From)),
                Kind::LeftParen => stray_name(shape),
                _ => None,
            },
            Mode::To(shape) => match kind {
                Kind::Word => Some((Mode::FirstValue(shape), Action::To)),
                Kind::LeftParen => stray_name(shape),
                _ => None,
            },
            Mode::FirstValue(shape) => match kind {
                Kind::LeftParen => go(Mode::Number(shape)),
                _ => None,
            },
            Mode::Number(shape) => match kind {
                Kind::RightParen => Some((Mode::Values(shape), Action::Empty)),
                Kind::LeftParen => pass(Site::Entries, 2),
                Kind::Word => {
                    if is_retain(shape, keyword_of(bytes)) {
                        pass(Site::Entries, 1)
                    } else {
                        Some((Mode::NumberEnd(shape), Action::Number))
                    }
                }
                _ => None,
            },
            Mode::NumberEnd(shape) => match kind {
                Kind::RightParen => go(Mode::Values(shape)),
                Kind::LeftParen => pass(Site::Entries, 2),
                _ => None,
            },
            Mode::Values(shape) => match kind {
                Kind::LeftParen => go(Mode::Number(shape)),
                Kind::RightParen => Some((Mode::Entries, Action::Row(shape))),
                _ => None,
            },
            Mode::Over(site, depth) => match kind {
                Kind::Word | Kind::Quoted => go(Mode::Over(site, depth)),
                Kind::LeftParen => go(Mode::Over(site, depth + 1)),
                Kind::RightParen => closes(site, depth),
                _ => None,
            },
            Mode::Cells => match kind {
                Kind::LeftParen => go(Mode::CellWord),
                Kind::RightParen => go(Mode::End),
                _ => None,
            },
            Mode::CellWord => match kind {
                Kind::Word => match keyword_of(bytes) {
                    Some(Keyword::Cell) => go(Mode::TypeOpen),
                    _ => None,
                },
                _ => None,
            },
            Mode::End => None,
        }
    }
}
