//! The reader: takes one token after another, whole or not at all.
ghost use Rattle.std.specs.Prelude.{◌≡◌, ℕ, ◌+◌, ◌<◌, ◌≤◌, ◌^◌, List, [], length, Option, Some, IfOk, OnOk};
ghost use Rattle.sdf_reader.specs.Rows.{within, row_in};
ghost use Rattle.sdf_reader.specs.Numbers.{IsValue};
ghost use Rattle.sdf_reader.specs.Sizes.{IsValueWithin};
ghost use Rattle.sdf_reader.specs.Grammar.{instance_of};
ghost use Rattle.sdf_reader.specs.Steps.{cause_of, depth_of};
ghost use Rattle.sdf_reader.specs.Modes.{first_state, with_entry, with_value, with_rows, numbered_by, applied, step, finish, Decides};
ghost use Rattle.sdf_reader.specs.ReaderStates.{state_of, Steps};
ghost use Rattle.token_texts.specs.Readings.{OnTaken};
ghost use Rattle.sdf_reader.specs.Tokens.{cut_at};
ghost use Rattle.sdf_reader.specs.Leading.{Leads, Stops, Makes, IsSound};
ghost use Rattle.sdf_reader.specs.Within.{cut_within};
ghost use Rattle.sdf_reader.specs.declared.rows.Value.{Value};
ghost use Rattle.sdf_reader.specs.declared.timescales.Timescale.{Timescale};

use crate::ends::SdfCause;
use crate::modes::{Action, Mode, Shape};
use crate::numbers::value_of;
use crate::rows::{SdfRow, SdfRows, Value};
use crate::scan::{Kind, cut_at};
use crate::texts::meaning;
use crate::timescales::Timescale;
use edge_io::{OutOfMemory, Text};
use name_table::canonical_sdf;
use std::alloc::Global;
use std::mem;
use token_texts::{Cut, TokenReader};

/// A value without a number.
const NO_VALUE: Value = Value {
    min: None,
    typ: None,
    max: None,
};

/// How many values of an entry were read.
#[derive(Clone, Copy)]
pub enum Taken {
    None,
    One,
    More,
}

/// What is waited for, and what has been read. It borrows nothing of the file.
#[derive(Drop)]
pub struct Reader {
    pub mode: Mode,

    pub divider: u8,
    pub scale: Timescale,

    /// The type of the cell, and its instance: `None` where that is the word `*`, which names many.
    pub cell: Text,
    pub instance: Option<Text>,

    /// The names of the entry, and its values.
    pub from: Text,
    pub to: Text,
    pub taken: Taken,
    pub rise: Value,
    pub fall: Value,
    pub rows: SdfRows,
    pub alloc: Global,
}

/// Why a token of this kind is refused, where it cannot stand.
fn cause_of(kind: Kind) -> SdfCause
    ensures { result ≡ cause_of kind }
{
    match kind {
        Kind::Bad => SdfCause::BadByte,
        Kind::OpenQuoted => SdfCause::OpenText,
        Kind::OpenNote => SdfCause::OpenComment,
        _ => SdfCause::Unexpected,
    }
}

impl Reader {
    /// Before the first token.
    pub(crate) fn new(alloc: Global) -> Reader
        ensures { state_of result ≡ first_state }
    {
        Reader {
            mode: Mode::Start,
            divider: b'.',
            scale: Timescale::PLAIN,
            cell: Text::new(alloc),
            instance: None,
            from: Text::new(alloc),
            to: Text::new(alloc),
            taken: Taken::None,
            rise: NO_VALUE,
            fall: NO_VALUE,
            rows: SdfRows::new(alloc),
            alloc,
        }
    }

    /// The instance of a cell that has this name: none where it is the word `*`, which names many.
    fn instance_of(&self, word: &[u8]) -> Result<Option<Text>, OutOfMemory>
        ensures { IfOk result (λ instance. instance ≡ instance_of self.now.divider word.now) }
    {
        if word == b"*".as_slice() {
            return Ok(None);
        }
        let name = canonical_sdf(self.alloc, word, self.divider)?;
        Ok(Some(name))
    }

    /// Keeps a value of the entry: the first is its rise, and its fall, unless there is a second. Others are not acted on.
    fn keep(&mut self, value: Value)
        ensures state { state_of self.new ≡ with_entry (with_value value (state_of self.old).entry) (state_of self.old) }
        ensures mode { self.new.mode ≡ self.old.mode }
    {
        match self.taken {
            Taken::None => {
                self.rise = value;
                self.fall = value;
                self.taken = Taken::One;
            }
            Taken::One => {
                self.fall = value;
                self.taken = Taken::More;
            }
            Taken::More => {}
        }
    }

    /// The row of the entry, in a cell of this instance.
    fn row(
        &self,
        shape: Shape,
        instance: &[u8],
        from: Text,
        to: Text,
    ) -> Result<SdfRow, OutOfMemory>
        ensures { IfOk result (λ row. row ≡ row_in shape self.now.cell instance.now from to self.now.rise self.now.fall) }
    {
        match shape {
            Shape::Path => {
                let cell = Text::from_bytes(self.alloc, self.cell.bytes())?;
                let instance = Text::from_bytes(self.alloc, instance)?;
                Ok(SdfRow::Path {
                    cell,
                    instance,
                    from,
                    to,
                    rise: self.rise,
                    fall: self.fall,
                })
            }
            Shape::Wire => {
                let from = within(self.alloc, instance, from)?;
                let to = within(self.alloc, instance, to)?;
                Ok(SdfRow::Wire {
                    from,
                    to,
                    rise: self.rise,
                    fall: self.fall,
                })
            }
        }
    }

    /// Ends the entry.
    fn end_entry(&mut self, shape: Shape) -> Result<(), OutOfMemory>
        requires room { length self.old.rows + 1 < 2 ^ 32 }
        requires rise { IsValueWithin self.old.rise }
        requires fall { IsValueWithin self.old.fall }
        ensures state { OnOk result (state_of self.new ≡ with_rows shape (state_of self.old)) }
        ensures mode { OnOk result (self.new.mode ≡ self.old.mode) }
    {
        let from = mem::replace(&mut self.from, Text::new(self.alloc));
        let to = mem::replace(&mut self.to, Text::new(self.alloc));
        match mem::replace(&mut self.instance, None) {
            None => {}
            Some(instance) => {
                let row = self.row(shape, instance.bytes(), from, to)?;
                self.rows.push(row)?;
                self.instance = Some(instance);
            }
        }
        Ok(())
    }

    /// Keeps the number of a value, if it is one.
    fn number(&mut self, word: &[u8]) -> Option<SdfCause>
        ensures state { (number : Timescale → List ℕ → Option Value) → Decides IsValue number
            → Steps (numbered_by (number self.old.scale word.now) (state_of self.old)) (state_of self.new) result }
        ensures mode { self.new.mode ≡ self.old.mode }
    {
        match value_of(self.scale, word) {
            None => Some(SdfCause::BadNumber),
            Some(value) => {
                self.keep(value);
                None
            }
        }
    }

    /// Does this with a token of these bytes, or says why the token is refused.
    fn apply(&mut self, action: Action, bytes: &[u8]) -> Result<Option<SdfCause>, OutOfMemory>
        requires room { length self.old.rows + 1 < 2 ^ 32 }
        requires rise { IsValueWithin self.old.rise }
        requires fall { IsValueWithin self.old.fall }
        ensures state { (number : Timescale → List ℕ → Option Value) → Decides IsValue number
            → IfOk result (Steps (applied number action (state_of self.old) bytes.now) (state_of self.new)) }
        ensures mode { OnOk result (self.new.mode ≡ self.old.mode) }
    {
        match action {
            Action::Nothing => {}
            Action::Divide(byte) => self.divider = byte,
            Action::Rescale(scale) => self.scale = scale,
            Action::SetType => self.cell = meaning(self.alloc, bytes)?,
            Action::Instance => self.instance = self.instance_of(bytes)?,
            Action::NoInstance => self.instance = Some(Text::new(self.alloc)),
            Action::Begin => {
                self.taken = Taken::None;
                self.rise = NO_VALUE;
                self.fall = NO_VALUE;
            }
            Action::From => self.from = canonical_sdf(self.alloc, bytes, self.divider)?,
            Action::To => self.to = canonical_sdf(self.alloc, bytes, self.divider)?,
            Action::Empty => self.keep(NO_VALUE),
            Action::Number => return Ok(self.number(bytes)),
            Action::Row(shape) => self.end_entry(shape)?,
        }
        Ok(None)
    }

    /// Takes the token of this kind and of these bytes, or says why it cannot stand here.
    fn take_token(&mut self, kind: Kind, bytes: &[u8]) -> Result<Option<SdfCause>, OutOfMemory>
        requires depth { depth_of self.old.mode < 2 ^ 42 }
        requires room { length self.old.rows + 1 < 2 ^ 32 }
        requires rise { IsValueWithin self.old.rise }
        requires fall { IsValueWithin self.old.fall }
        ensures state { (number : Timescale → List ℕ → Option Value) → Decides IsValue number
            → IfOk result (Steps (step number (state_of self.old) kind bytes.now) (state_of self.new)) }
        ensures depth { OnOk result (depth_of self.new.mode ≤ depth_of self.old.mode + 256) }
        ensures rise { OnTaken result (IsValueWithin self.new.rise) }
        ensures fall { OnTaken result (IsValueWithin self.new.fall) }
        ensures rows { OnTaken result (length self.new.rows ≤ length self.old.rows + 1) }
    {
        match self.mode.next(kind, bytes) {
            None => Ok(Some(cause_of(kind))),
            Some((mode, action)) => {
                self.mode = mode;
                self.apply(action, bytes)
            }
        }
    }
}

impl TokenReader for Reader {
    type Kind = Kind;

    type Value = SdfRows;

    type Cause = SdfCause;

    ghost cut_at = { cut_at };

    ghost IsSound = { IsSound };

    ghost Leads = { Leads };

    ghost Stops = { Stops };

    ghost Makes = { Makes };

    #[inline]
    fn cut(bytes: &[u8], first: u8, rest: &[u8]) -> Cut<Kind> {
        cut_at(bytes, first, rest)
    }

    #[inline]
    fn pass(&mut self, _bytes: &[u8]) {}

    fn take(
        &mut self,
        _number: u64,
        _start: usize,
        kind: Kind,
        bytes: &[u8],
    ) -> Result<Option<SdfCause>, OutOfMemory> {
        self.take_token(kind, bytes)
    }

    fn finish(self) -> Result<Result<SdfRows, SdfCause>, OutOfMemory> {
        match self.mode {
            Mode::End => Ok(Ok(self.rows)),
            _ => Ok(Err(SdfCause::EndInside)),
        }
    }

    ghost within = { cut_within };
}

/// A name in an instance: the instance, `/` and the name, or the name alone where the instance is empty.
fn within(alloc: Global, instance: &[u8], name: Text) -> Result<Text, OutOfMemory>
    ensures { IfOk result (λ text. text ≡ within instance.now name) }
{
    if instance.is_empty() {
        return Ok(name);
    }
    let mut text = Text::from_bytes(alloc, instance)?;
    text.push_all(b"/")?;
    text.push_all(name.bytes())?;
    Ok(text)
}
