//! The reader: takes one token after another, whole or not at all.
ghost use Rattle.std.specs.Prelude.{◌≡◌, ◌<◌, ◌^◌, ℕ, false, length, IfOk, OnOk};
ghost use Rattle.liberty_groups.specs.Modes.{first_state, step_in};
ghost use Rattle.liberty_groups.specs.Steps.{settles, applied};
ghost use Rattle.liberty_groups.specs.Tokens.{cut_at, said_by};
ghost use Rattle.liberty_groups.specs.Building.{begun_as, behind, lexeme};
ghost use Rattle.liberty_groups.specs.Built.{built_of, IsBuilt};
ghost use Rattle.liberty_groups.specs.ReaderStates.{state_of, at_mode, settled_if, IsSound, Steps};
ghost use Rattle.liberty_groups.specs.Leading as leading;
ghost use Rattle.liberty_groups.specs.Leading.{Leads, Stops, Makes};
ghost use Rattle.liberty_groups.specs.Within.{cut_within};

use crate::builder::Builder;
use crate::events::Event;
use crate::faults::Cause;
use crate::modes::{Action, Mode};
use crate::scan::{Kind, breaks, cut_at};
use crate::texts::said;
use crate::tree::GroupTree;
use edge_io::OutOfMemory;
use std::alloc::Global;
use token_texts::{Cut, TokenReader};

/// How many groups may stand in one another, the library being the first.
const DEPTH_LIMIT: usize = 16;

/// What is waited for, and what has been read. It borrows nothing of the file.
#[derive(Drop)]
pub struct Reader {
    pub mode: Mode,

    /// How many groups have not ended.
    pub depth: usize,
    pub builder: Builder,

    /// Whether a line end that is no continuation's stands behind the last token.
    pub fresh: bool,
    pub alloc: Global,
}

impl Reader {
    /// Before the first token.
    pub(crate) fn new(alloc: Global) -> Reader
        ensures state { state_of result ≡ first_state }
        ensures sound { IsSound result }
        ensures fresh { result.fresh ≡ false }
        ensures built { IsBuilt result.builder }
    {
        Reader {
            mode: Mode::Start,
            depth: 0,
            builder: Builder::new(alloc),
            fresh: false,
            alloc,
        }
    }

    /// Adds an event; behind it something else is waited for, and so many groups have not ended.
    #[inline(always)]
    fn add(&mut self, event: Event, mode: Mode, depth: usize) -> Result<(), OutOfMemory>
        requires built { IsBuilt self.old.builder }
        ensures state { OnOk result (state_of self.new ≡ at_mode mode (behind (built_of self.old.builder) event)) }
        ensures depth { OnOk result (self.new.depth ≡ depth) }
        ensures built { OnOk result (IsBuilt self.new.builder) }
    {
        self.builder.take(event)?;
        self.mode = mode;
        self.depth = depth;
        Ok(())
    }

    /// Begins a statement of the name that a token says. Names are words, which say themselves.
    fn begin(&mut self, kind: Kind, bytes: &[u8]) -> Result<(), OutOfMemory>
        requires bytes { length bytes.now < 2 ^ 32 }
        requires built { IsBuilt self.old.builder }
        ensures built { OnOk result (built_of self.new.builder ≡ begun_as (said_by kind bytes.now) (built_of self.old.builder)) }
        ensures depth { OnOk result (self.new.depth ≡ self.old.depth) }
        ensures sound { OnOk result (IsBuilt self.new.builder) }
    {
        if matches!(kind, Kind::Word) {
            return self.builder.begin(bytes);
        }
        let text = said(self.alloc, kind, bytes)?;
        self.builder.begin(text.bytes())
    }

    /// Does this with a token of this kind and of these bytes, or says why the token is refused.
    #[inline(always)]
    fn apply(
        &mut self,
        action: Action,
        kind: Kind,
        bytes: &[u8],
    ) -> Result<Option<Cause>, OutOfMemory>
        requires bytes { length bytes.now < 2 ^ 32 }
        requires sound { IsSound self.old }
        requires built { IsBuilt self.old.builder }
        requires depth { self.old.depth < 2 ^ 32 }
        ensures state { IfOk result (Steps (applied action (state_of self.old) (said_by kind bytes.now)) (state_of self.new)) }
        ensures sound { OnOk result (IsSound self.new) }
        ensures built { OnOk result (IsBuilt self.new.builder) }
    {
        match action {
            Action::Refuse(cause) => return Ok(Some(cause)),
            Action::Go(mode) => self.mode = mode,
            Action::Begin(mode) => {
                self.begin(kind, bytes)?;
                self.mode = mode;
            }
            Action::Part(mode) => {
                let text = said(self.alloc, kind, bytes)?;
                self.add(Event::Part(text), mode, self.depth)?;
            }
            Action::Piece => {
                let text = said(self.alloc, kind, bytes)?;
                self.add(Event::Piece(text), Mode::Value, self.depth)?;
            }
            Action::OpenLibrary => self.add(Event::OpenLibrary, Mode::Body, 1)?,
            Action::Open => self.add(Event::Open, Mode::Body, self.depth + 1)?,
            Action::Close if self.depth > 1 => self.add(Event::Close, Mode::Body, self.depth - 1)?,
            Action::Close => self.add(Event::Close, Mode::End, self.depth)?,
        }
        Ok(None)
    }

    /// Ends an attribute, if the token shows that it has ended.
    #[inline(always)]
    fn settle(&mut self, kind: Kind, fresh: bool) -> Result<(), OutOfMemory>
        requires sound { IsSound self.old }
        requires built { IsBuilt self.old.builder }
        ensures state { OnOk result (state_of self.new ≡ settled_if (settles self.old.mode kind fresh) (state_of self.old)) }
        ensures sound { OnOk result (IsSound self.new) }
        ensures built { OnOk result (IsBuilt self.new.builder) }
        ensures depth { OnOk result (self.new.depth ≡ self.old.depth) }
    {
        if self.mode.settles(kind, fresh) {
            self.add(Event::Attribute, Mode::Body, self.depth)
        } else {
            Ok(())
        }
    }

    /// Takes the token of this kind and of these bytes, or says why it cannot stand here; `fresh` tells of a line end
    /// before it.
    #[inline(always)]
    fn take_token(
        &mut self,
        kind: Kind,
        bytes: &[u8],
        fresh: bool,
    ) -> Result<Option<Cause>, OutOfMemory>
        requires bytes { length bytes.now < 2 ^ 32 }
        requires sound { IsSound self.old }
        requires built { IsBuilt self.old.builder }
        requires depth { self.old.depth < 2 ^ 32 }
        ensures state { (start : ℕ) → IfOk result
            (Steps (step_in 16 self.old.mode (state_of self.old) (lexeme kind bytes.now fresh start)) (state_of self.new)) }
        ensures sound { OnOk result (IsSound self.new) }
        ensures built { OnOk result (IsBuilt self.new.builder) }
    {
        self.settle(kind, fresh)?;
        let action = self.mode.next(self.depth >= DEPTH_LIMIT, kind, bytes);
        self.apply(action, kind, bytes)
    }
}

impl TokenReader for Reader {
    type Kind = Kind;

    type Value = GroupTree;

    type Cause = Cause;

    ghost cut_at = { cut_at };

    ghost IsSound = { leading.IsSound };

    ghost Leads = { Leads };

    ghost Stops = { Stops };

    ghost Makes = { Makes };

    #[inline]
    fn cut(_bytes: &[u8], first: u8, rest: &[u8]) -> Cut<Kind> {
        cut_at(first, rest)
    }

    #[inline]
    fn pass(&mut self, bytes: &[u8]) {
        self.fresh = self.fresh | breaks(bytes);
    }

    #[inline(always)]
    fn take(
        &mut self,
        _number: u64,
        _start: usize,
        kind: Kind,
        bytes: &[u8],
    ) -> Result<Option<Cause>, OutOfMemory> {
        let refusal = self.take_token(kind, bytes, self.fresh)?;
        self.fresh = false;
        Ok(refusal)
    }

    fn finish(self) -> Result<Result<GroupTree, Cause>, OutOfMemory> {
        match self.mode {
            Mode::End => {
                let tree = self.builder.finish()?;
                Ok(Ok(tree))
            }
            _ => Ok(Err(Cause::EndInside)),
        }
    }

    ghost within = { cut_within };
}
