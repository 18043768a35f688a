//! What the reader waits for, and what each token does.
ghost use Rattle.std.specs.Prelude.{◌≡◌, true, false, slice_index, IfSome};
ghost use Rattle.spef_text.specs.Classes.{is_tight, holds_of};
ghost use Rattle.spef_text.specs.Modes.{top_step, bus_step, conns_step, tail_step, may_end};

use crate::classes::{is_mark, is_two_marks};
use crate::entries::{CapAt, ConnAt, HeadItem, ResAt};
use crate::words::Word;

/// What is waited for, with what has been read of the entry that has begun.
#[derive(Clone, Copy)]
pub enum Mode {
    /// `*SPEF`.
    Start,

    /// A token that is no keyword of the head, an item, a net or the end of the file.
    Others,

    /// The design's name, or what may stand without one.
    DesignName,

    /// An item, a net or the end of the file.
    Items,
    DividerMark,
    DelimiterMark,

    /// Both bus marks, or the left one.
    BusLeft,
    BusRight(u8),

    /// The number of the capacitances' unit, and its word.
    CapNumber,
    CapWord(u32),

    /// The same of the resistances.
    ResNumber,
    ResWord(u32),

    /// An index of the name map, or what follows the map.
    NameMap,
    MapName(u32),

    /// A net or the end of the file.
    Sections,
    NetName,
    NetTotal,

    /// What follows the total: `*V`, or a part of the section.
    AfterTotal,
    Confidence,
    AfterConfidence,

    /// A connection, or what follows the connections.
    Conns,
    ConnNode(bool),
    ConnDirection(bool, u32),

    /// More of a connection, or what follows it.
    ConnTail(ConnAt),
    ConnLoad(ConnAt),

    /// More of a `*N` line, or what follows it.
    NodeLine,

    /// The id of a capacitance, or what follows the capacitances.
    Caps,
    CapFirst,

    /// The second node, or the value.
    CapSecond(u32),
    CapValue(u32, u32),

    /// The id of a resistance, or what follows the resistances.
    Ress,
    ResFirst,
    ResSecond(u32),
    ResValue(u32, u32),
}

/// What a token does.
#[derive(Clone, Copy)]
pub enum Step {
    /// It cannot stand here.
    Refuse,

    /// Something else is waited for.
    Go(Mode),

    /// It sets something of the head.
    Put(Mode, HeadItem),

    /// It names the net of a section that begins.
    Open(u32),

    /// It shows that a connection has ended.
    Join(Mode, ConnAt),

    /// It is the value that ends a capacitance, or a resistance.
    AddCap(CapAt),
    AddRes(ResAt),

    /// It ends the section, and the connection, if one had not ended.
    Close(Option<ConnAt>),
}

/// What a keyword does where an item may begin.
pub(crate) fn top_step(word: Option<Word>) -> Step
    ensures { result ≡ top_step word }
{
    match word {
        Some(Word::Free) => Step::Go(Mode::Others),
        Some(Word::Design) => Step::Put(Mode::DesignName, HeadItem::Design(None)),
        Some(Word::Divider) => Step::Go(Mode::DividerMark),
        Some(Word::Delimiter) => Step::Go(Mode::DelimiterMark),
        Some(Word::BusDelimiter) => Step::Go(Mode::BusLeft),
        Some(Word::CapUnit) => Step::Go(Mode::CapNumber),
        Some(Word::ResUnit) => Step::Go(Mode::ResNumber),
        Some(Word::NameMap) => Step::Go(Mode::NameMap),
        Some(Word::Net) => Step::Go(Mode::NetName),
        _ => Step::Refuse,
    }
}

/// What a keyword does where a connection may begin.
pub(crate) fn conns_step(word: Option<Word>) -> Step
    ensures { result ≡ conns_step word }
{
    match word {
        Some(Word::Port) => Step::Go(Mode::ConnNode(true)),
        Some(Word::Internal) => Step::Go(Mode::ConnNode(false)),
        Some(Word::Node) => Step::Go(Mode::NodeLine),
        Some(Word::Cap) => Step::Go(Mode::Caps),
        Some(Word::Res) => Step::Go(Mode::Ress),
        Some(Word::End) => Step::Close(None),
        _ => Step::Refuse,
    }
}

/// What is waited for behind a keyword that ends a connection, where more of the section follows.
#[inline(always)]
pub(crate) fn joined_mode(word: Option<Word>) -> Option<Mode>
    ensures joined { IfSome result (λ mode. (conn : ConnAt) → tail_step conn false word ≡ Step.Join mode conn) }
    ensures tight { IfSome result (λ mode. holds_of is_tight word ≡ true) }
{
    match word {
        Some(Word::Port) => Some(Mode::ConnNode(true)),
        Some(Word::Internal) => Some(Mode::ConnNode(false)),
        Some(Word::Node) => Some(Mode::NodeLine),
        Some(Word::Cap) => Some(Mode::Caps),
        Some(Word::Res) => Some(Mode::Ress),
        _ => None,
    }
}

/// What a token does behind a connection's direction.
pub(crate) fn tail_step(conn: ConnAt, word: Option<Word>, loose: bool) -> Step
    ensures { result ≡ tail_step conn loose word }
{
    if loose {
        return Step::Go(Mode::ConnTail(conn));
    }
    match word {
        Some(Word::Load) => Step::Go(Mode::ConnLoad(conn)),
        Some(Word::Port) => Step::Join(Mode::ConnNode(true), conn),
        Some(Word::Internal) => Step::Join(Mode::ConnNode(false), conn),
        Some(Word::Node) => Step::Join(Mode::NodeLine, conn),
        Some(Word::Cap) => Step::Join(Mode::Caps, conn),
        Some(Word::Res) => Step::Join(Mode::Ress, conn),
        Some(Word::End) => Step::Close(Some(conn)),
        _ => Step::Refuse,
    }
}

/// The first byte of a text, or 0.
pub(crate) fn first_byte(text: &[u8]) -> u8
    ensures { result ≡ slice_index text.now 0 }
{
    match text {
        [first, ..] => *first,
        [] => 0,
    }
}

/// What the bus marks do: both in one token, or the left one.
#[tactic(auto, unfolding(crate::specs::Classes::is_two_marks, crate::specs::Classes::is_mark))]
pub(crate) fn bus_step(text: &[u8]) -> Step
    ensures { result ≡ bus_step text.now }
{
    match text {
        [left, right] if is_two_marks(text) => {
            Step::Put(Mode::Items, HeadItem::BusDelimiter(*left, *right))
        }
        _ if is_mark(text) => Step::Go(Mode::BusRight(first_byte(text))),
        _ => Step::Refuse,
    }
}

impl Mode {
    /// Whether the file may end here.
    pub fn may_end(&self) -> bool
        ensures { result ≡ may_end self.now }
    {
        matches!(
            *self,
            Mode::Others | Mode::DesignName | Mode::Items | Mode::NameMap | Mode::Sections
        )
    }
}
