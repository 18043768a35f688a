//! What each token does, by what is waited for.
ghost use Rattle.std.specs.Prelude.{◌≡◌, IfOk};
ghost use Rattle.spef_text.specs.Classes.{is_loose, word_of};
ghost use Rattle.spef_text.specs.Modes.{next_mode, tail_step};
ghost use Rattle.spef_text.specs.ReaderStates.{state_of, Steps};

use crate::classes::{
    is_direction, is_id, is_index, is_loose, is_mark, is_name, is_other, is_ref, is_value,
};
use crate::entries::{CapAt, ConnAt, HeadItem, MapEntry, ResAt};
use crate::modes::{
    Mode, Step, bus_step, conns_step, first_byte, joined_mode, tail_step, top_step,
};
use crate::reader::Reader;
use crate::words::{Word, word_of};
use delay_units::is_literal;
use edge_io::OutOfMemory;

impl Reader {
    /// Takes a token behind a connection's direction, whose keyword is looked for once. Mostly it ends the connection, and no step of it
    /// is put into memory.
    #[inline(always)]
    fn take_conn_tail(&mut self, conn: ConnAt, text: &[u8]) -> Result<bool, OutOfMemory>
        ensures state { IfOk result (Steps (state_of self.old) (state_of self.new)
            (tail_step conn (is_loose text.now) (word_of text.now))) }
        ensures starts { self.new.starts ≡ self.old.starts }
        ensures lens { self.new.lens ≡ self.old.lens }
    {
        let word = word_of(text);
        match joined_mode(word) {
            Some(mode) => self.join(mode, conn),
            None => self.apply(&tail_step(conn, word, is_loose(text, word))),
        }
    }

    /// Takes the token of this number, and tells whether it can stand here. Each arm does its step where it stands: there the compiler
    /// sees which steps can come, and puts none into memory. Each mode has a default of its own: one for all is not proved.
    #[tactic(auto, unfolding(crate::specs::Classes::is_map_name))]
    pub(crate) fn take_token(&mut self, number: u32, text: &[u8]) -> Result<bool, OutOfMemory>
        ensures state { IfOk result (Steps (state_of self.old) (state_of self.new)
            (next_mode self.old.mode self.old.head.marks.delimiter number text.now)) }
        ensures starts { self.new.starts ≡ self.old.starts }
        ensures lens { self.new.lens ≡ self.old.lens }
    {
        let mark = self.head.marks.delimiter;
        match self.mode {
            Mode::Start => match word_of(text) {
                Some(Word::Spef) => self.apply(&Step::Go(Mode::Others)),
                _ => Ok(false),
            },
            Mode::Others => {
                if is_other(text) {
                    self.apply(&Step::Go(Mode::Others))
                } else {
                    self.apply(&top_step(word_of(text)))
                }
            }
            Mode::DesignName => {
                if is_other(text) {
                    self.apply(&Step::Put(Mode::Others, HeadItem::Design(Some(number))))
                } else {
                    self.apply(&top_step(word_of(text)))
                }
            }
            Mode::Items => self.apply(&top_step(word_of(text))),
            Mode::DividerMark => {
                let item = HeadItem::Divider(first_byte(text));
                self.apply_if(is_mark(text), &Step::Put(Mode::Items, item))
            }
            Mode::DelimiterMark => {
                let item = HeadItem::Delimiter(first_byte(text));
                self.apply_if(is_mark(text), &Step::Put(Mode::Items, item))
            }
            Mode::BusLeft => self.apply(&bus_step(text)),
            Mode::BusRight(left) => {
                let item = HeadItem::BusDelimiter(left, first_byte(text));
                self.apply_if(is_mark(text), &Step::Put(Mode::Items, item))
            }
            Mode::CapNumber => self.apply_if(is_literal(text), &Step::Go(Mode::CapWord(number))),
            Mode::CapWord(at) => {
                let item = HeadItem::CapUnit(at);
                self.apply_if(is_other(text), &Step::Put(Mode::Items, item))
            }
            Mode::ResNumber => self.apply_if(is_literal(text), &Step::Go(Mode::ResWord(number))),
            Mode::ResWord(at) => {
                let item = HeadItem::ResUnit(at);
                self.apply_if(is_other(text), &Step::Put(Mode::Items, item))
            }
            Mode::NameMap => {
                if is_index(text) {
                    self.apply(&Step::Go(Mode::MapName(number)))
                } else {
                    self.apply(&top_step(word_of(text)))
                }
            }
            Mode::MapName(index) => {
                let item = HeadItem::Mapped(MapEntry {
                    index,
                    name: number,
                });
                self.apply_if(is_name(text), &Step::Put(Mode::NameMap, item))
            }
            Mode::Sections => match word_of(text) {
                Some(Word::Net) => self.apply(&Step::Go(Mode::NetName)),
                _ => Ok(false),
            },
            Mode::NetName => self.apply_if(is_ref(mark, text), &Step::Open(number)),
            Mode::NetTotal => self.apply_if(is_value(text), &Step::Go(Mode::AfterTotal)),
            Mode::AfterTotal => match word_of(text) {
                Some(Word::Confidence) => self.apply(&Step::Go(Mode::Confidence)),
                Some(Word::Conn) => self.apply(&Step::Go(Mode::Conns)),
                Some(Word::Cap) => self.apply(&Step::Go(Mode::Caps)),
                Some(Word::Res) => self.apply(&Step::Go(Mode::Ress)),
                Some(Word::End) => self.apply(&Step::Close(None)),
                _ => Ok(false),
            },
            Mode::Confidence => self.apply_if(is_literal(text), &Step::Go(Mode::AfterConfidence)),
            Mode::AfterConfidence => match word_of(text) {
                Some(Word::Conn) => self.apply(&Step::Go(Mode::Conns)),
                Some(Word::Cap) => self.apply(&Step::Go(Mode::Caps)),
                Some(Word::Res) => self.apply(&Step::Go(Mode::Ress)),
                Some(Word::End) => self.apply(&Step::Close(None)),
                _ => Ok(false),
            },
            Mode::Conns => self.apply(&conns_step(word_of(text))),
            Mode::ConnNode(port) => {
                let direction = Mode::ConnDirection(port, number);
                self.apply_if(is_ref(mark, text), &Step::Go(direction))
            }
            Mode::ConnDirection(port, node) => {
                let conn = ConnAt {
                    port,
                    node,
                    direction: first_byte(text),
                    load: None,
                };
                self.apply_if(is_direction(text), &Step::Go(Mode::ConnTail(conn)))
            }
            Mode::ConnTail(conn) => self.take_conn_tail(conn, text),
            Mode::ConnLoad(conn) => {
                let conn = ConnAt {
                    port: conn.port,
                    node: conn.node,
                    direction: conn.direction,
                    load: Some(number),
                };
                self.apply_if(is_value(text), &Step::Go(Mode::ConnTail(conn)))
            }
            Mode::NodeLine => {
                let word = word_of(text);
                if is_loose(text, word) {
                    self.apply(&Step::Go(Mode::NodeLine))
                } else {
                    self.apply(&conns_step(word))
                }
            }
            Mode::Caps => {
                if is_id(text) {
                    return self.apply(&Step::Go(Mode::CapFirst));
                }
                match word_of(text) {
                    Some(Word::Res) => self.apply(&Step::Go(Mode::Ress)),
                    Some(Word::End) => self.apply(&Step::Close(None)),
                    _ => Ok(false),
                }
            }
            Mode::CapFirst => {
                self.apply_if(is_ref(mark, text), &Step::Go(Mode::CapSecond(number)))
            }
            Mode::CapSecond(first) => {
                if is_value(text) {
                    return self.apply(&Step::AddCap(CapAt {
                        first,
                        second: None,
                        value: number,
                    }));
                }
                let value = Mode::CapValue(first, number);
                self.apply_if(is_ref(mark, text), &Step::Go(value))
            }
            Mode::CapValue(first, second) => {
                let cap = CapAt {
                    first,
                    second: Some(second),
                    value: number,
                };
                self.apply_if(is_value(text), &Step::AddCap(cap))
            }
            Mode::Ress => {
                if is_id(text) {
                    return self.apply(&Step::Go(Mode::ResFirst));
                }
                match word_of(text) {
                    Some(Word::End) => self.apply(&Step::Close(None)),
                    _ => Ok(false),
                }
            }
            Mode::ResFirst => {
                self.apply_if(is_ref(mark, text), &Step::Go(Mode::ResSecond(number)))
            }
            Mode::ResSecond(first) => {
                let value = Mode::ResValue(first, number);
                self.apply_if(is_ref(mark, text), &Step::Go(value))
            }
            Mode::ResValue(first, second) => {
                let res = ResAt {
                    first,
                    second,
                    value: number,
                };
                self.apply_if(is_value(text), &Step::AddRes(res))
            }
        }
    }
}
