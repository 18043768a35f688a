//! What each token does, by what is waited for.
ghost use Rattle.std.specs.Prelude.{◌≡◌};
ghost use Rattle.verilog_netlist.specs.Steps.{operand_end_step, step_in};
ghost use Rattle.verilog_netlist.specs.ReaderStates.{go_if, Does};

use crate::entries::{Decl, Direction, Entry, Range};
use crate::kinds::Kind;
use crate::modes::{Bound, Mode, Place};
use crate::reader::Reader;
use edge_io::OutOfMemory;
use token_texts::Span;

/// How many `{` may be open in one another.
const BRACE_LIMIT: u32 = 16;

/// Behind an expression in a connection: the connection's `)`, or, inside `{`, another expression or the `}`.
#[inline(always)]
fn mode_behind(kind: Kind, place: Place) -> Option<Mode>
    ensures { go_if result ≡ operand_end_step kind place }
{
    if place.depth == 0 {
        return match kind {
            Kind::RightParen => Some(Mode::ConnectionEnd(place.cell)),
            _ => None,
        };
    }
    match kind {
        Kind::Comma => Some(Mode::Operand(place)),
        Kind::RightBrace => Some(Mode::OperandEnd(Place {
            cell: place.cell,
            depth: place.depth - 1,
        })),
        _ => None,
    }
}

impl Reader {
    /// Takes the token of this kind at this place of the file, and tells whether it can stand here. Each arm changes the reader where it
    /// stands: to hand steps out as values takes a quarter more of the time of a netlist. Each mode has a default of its own: one for all
    /// is not proved.
    #[inline]
    pub(crate) fn take(&mut self, kind: Kind, at: Span) -> Result<bool, OutOfMemory>
        ensures { Does self.old (step_in self.old.mode kind at) result self.new }
    {
        match self.mode {
            Mode::Modules => match kind {
                Kind::Module => self.go(Mode::ModuleName),
                _ => Ok(false),
            },
            Mode::ModuleName => match kind {
                Kind::Name => self.put(Mode::ModuleHead, Entry::Module(at)),
                _ => Ok(false),
            },
            Mode::ModuleHead => match kind {
                Kind::LeftParen => self.go(Mode::HeaderStart),
                Kind::Semicolon => self.go(Mode::Items),
                _ => Ok(false),
            },
            Mode::HeaderStart => match kind {
                Kind::Name => self.put(Mode::HeaderMore, Entry::Header(at)),
                Kind::Input => self.go(Mode::AfterWay(Decl::InHeader(Direction::In))),
                Kind::Output => self.go(Mode::AfterWay(Decl::InHeader(Direction::Out))),
                Kind::RightParen => self.go(Mode::HeaderEnd),
                _ => Ok(false),
            },
            Mode::HeaderName => match kind {
                Kind::Name => self.put(Mode::HeaderMore, Entry::Header(at)),
                _ => Ok(false),
            },
            Mode::HeaderMore => match kind {
                Kind::Comma => self.go(Mode::HeaderName),
                Kind::RightParen => self.go(Mode::HeaderEnd),
                _ => Ok(false),
            },
            Mode::HeaderEnd => match kind {
                Kind::Semicolon => self.go(Mode::Items),
                _ => Ok(false),
            },
            Mode::Items => match kind {
                Kind::Input => self.go(Mode::AfterWay(Decl::Port(Direction::In))),
                Kind::Output => self.go(Mode::AfterWay(Decl::Port(Direction::Out))),
                Kind::Wire => self.go(Mode::AfterWire(Decl::Wire)),
                Kind::Name => self.go(Mode::InstanceName(at)),
                Kind::EndModule => self.go(Mode::Modules),
                _ => Ok(false),
            },
            Mode::AfterWay(decl) => match kind {
                Kind::Wire => self.go(Mode::AfterWire(decl)),
                Kind::LeftBracket => self.go(Mode::RangeLeft(decl)),
                Kind::Name => self.put(
                    Mode::DeclaredMore(decl, None),
                    Entry::Declared(decl, at, None),
                ),
                _ => Ok(false),
            },
            Mode::AfterWire(decl) => match kind {
                Kind::LeftBracket => self.go(Mode::RangeLeft(decl)),
                Kind::Name => self.put(
                    Mode::DeclaredMore(decl, None),
                    Entry::Declared(decl, at, None),
                ),
                _ => Ok(false),
            },
            Mode::RangeLeft(decl) => match kind {
                Kind::Number(value) => self.go(Mode::RangeColon(
                    decl,
                    Bound {
                        value,
                        at: at.start,
                    },
                )),
                _ => Ok(false),
            },
            Mode::RangeColon(decl, left) => match kind {
                Kind::Colon => self.go(Mode::RangeRight(decl, left)),
                _ => Ok(false),
            },
            Mode::RangeRight(decl, left) => match kind {
                Kind::Number(right) => self.go(Mode::RangeEnd(
                    decl,
                    Range {
                        left: left.value,
                        right,
                        left_at: left.at,
                        right_at: at.start,
                    },
                )),
                _ => Ok(false),
            },
            Mode::RangeEnd(decl, range) => match kind {
                Kind::RightBracket => self.go(Mode::DeclaredName(decl, Some(range))),
                _ => Ok(false),
            },
            Mode::DeclaredName(decl, range) => match kind {
                Kind::Name => self.put(
                    Mode::DeclaredMore(decl, range),
                    Entry::Declared(decl, at, range),
                ),
                _ => Ok(false),
            },
            Mode::DeclaredMore(Decl::InHeader(way), range) => match kind {
                Kind::Comma => self.go(Mode::NextPort(way, range)),
                Kind::RightParen => self.go(Mode::HeaderEnd),
                _ => Ok(false),
            },
            Mode::DeclaredMore(decl, range) => match kind {
                Kind::Comma => self.go(Mode::DeclaredName(decl, range)),
                Kind::Semicolon => self.go(Mode::Items),
                _ => Ok(false),
            },
            Mode::NextPort(way, range) => match kind {
                Kind::Name => self.put(
                    Mode::DeclaredMore(Decl::InHeader(way), range),
                    Entry::Declared(Decl::InHeader(way), at, range),
                ),
                Kind::Input => self.go(Mode::AfterWay(Decl::InHeader(Direction::In))),
                Kind::Output => self.go(Mode::AfterWay(Decl::InHeader(Direction::Out))),
                _ => Ok(false),
            },
            Mode::InstanceName(cell) => match kind {
                Kind::Name => self.put(Mode::InstanceOpen(cell), Entry::Instance(cell, at)),
                _ => Ok(false),
            },
            Mode::InstanceOpen(cell) => match kind {
                Kind::LeftParen => self.go(Mode::FirstConnection(cell)),
                _ => Ok(false),
            },
            Mode::FirstConnection(cell) => match kind {
                Kind::Dot => self.go(Mode::PortName(cell)),
                Kind::RightParen => self.go(Mode::InstanceEnd(cell)),
                _ => Ok(false),
            },
            Mode::NextConnection(cell) => match kind {
                Kind::Dot => self.go(Mode::PortName(cell)),
                _ => Ok(false),
            },
            Mode::PortName(cell) => match kind {
                Kind::Name => self.put(Mode::PortOpen(cell), Entry::Port(at)),
                _ => Ok(false),
            },
            Mode::PortOpen(cell) => match kind {
                Kind::LeftParen => self.go(Mode::Joined(cell)),
                _ => Ok(false),
            },
            Mode::Joined(cell) => match kind {
                Kind::RightParen => self.go(Mode::ConnectionEnd(cell)),
                Kind::Name => self.go(Mode::NameEnd(Place { cell, depth: 0 }, at)),
                Kind::Constant => self.put(
                    Mode::OperandEnd(Place { cell, depth: 0 }),
                    Entry::Constant(at),
                ),
                Kind::LeftBrace => self.go(Mode::Operand(Place { cell, depth: 1 })),
                _ => Ok(false),
            },
            Mode::Operand(place) => match kind {
                Kind::Name => self.go(Mode::NameEnd(place, at)),
                Kind::Constant => self.put(Mode::OperandEnd(place), Entry::Constant(at)),
                Kind::LeftBrace if place.depth < BRACE_LIMIT => self.go(Mode::Operand(Place {
                    cell: place.cell,
                    depth: place.depth + 1,
                })),
                _ => Ok(false),
            },
            Mode::NameEnd(place, name) => match kind {
                Kind::LeftBracket => self.go(Mode::SelectLeft(place, name)),
                _ => match mode_behind(kind, place) {
                    Some(mode) => self.put(mode, Entry::Whole(name)),
                    None => Ok(false)
                },
            },
            Mode::SelectLeft(place, name) => match kind {
                Kind::Number(value) => self.go(Mode::SelectNext(
                    place,
                    name,
                    Bound {
                        value,
                        at: at.start,
                    },
                )),
                _ => Ok(false),
            },
            Mode::SelectNext(place, name, left) => match kind {
                Kind::RightBracket => self.put(
                    Mode::OperandEnd(place),
                    Entry::Bit(name, left.value),
                ),
                Kind::Colon => self.go(Mode::SelectRight(place, name, left)),
                _ => Ok(false),
            },
            Mode::SelectRight(place, name, left) => match kind {
                Kind::Number(right) => self.go(Mode::SelectEnd(
                    place,
                    name,
                    Range {
                        left: left.value,
                        right,
                        left_at: left.at,
                        right_at: at.start,
                    },
                )),
                _ => Ok(false),
            },
            Mode::SelectEnd(place, name, range) => match kind {
                Kind::RightBracket => self.put(Mode::OperandEnd(place), Entry::Part(name, range)),
                _ => Ok(false),
            },
            Mode::OperandEnd(place) => match mode_behind(kind, place) {
                Some(mode) => self.go(mode),
                None => Ok(false),
            },
            Mode::ConnectionEnd(cell) => match kind {
                Kind::Comma => self.go(Mode::NextConnection(cell)),
                Kind::RightParen => self.go(Mode::InstanceEnd(cell)),
                _ => Ok(false),
            },
            Mode::InstanceEnd(cell) => match kind {
                Kind::Comma => self.go(Mode::InstanceName(cell)),
                Kind::Semicolon => self.go(Mode::Items),
                _ => Ok(false),
            },
        }
    }
}
