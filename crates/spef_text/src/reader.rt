//! The reader: takes one token after another.
ghost use Rattle.std.specs.Prelude.{◌≡◌, ℕ, [], ⊤, IfOk};
ghost use Rattle.spef_text.specs.Modes.{first_state, or_else};
ghost use Rattle.spef_text.specs.declared.modes.Step.TheVariants.{Refuse};
ghost use Rattle.spef_text.specs.ReaderStates.{state_of, Steps};
ghost use Rattle.spef_text.specs.Tokens.{cut_at};
ghost use Rattle.spef_text.specs.Within.{cut_within};
ghost use Rattle.spef_text.specs.Leading.{Leads, Stops, Makes};

use crate::entries::ConnAt;
use crate::head_items::HeadItems;
use crate::modes::{Mode, Step};
use crate::parsing::{SpefEnd, refusal};
use crate::scan::{Kind, cut_at, front_at};
use crate::sections::Sections;
use crate::starts::short_len;
use edge_io::OutOfMemory;
use edge_io::lists::push;
use std::alloc::Global;
use token_texts::{Cut, Front, TokenReader};

/// What is waited for, what has been read, where each token begins, and how long it is.
#[derive(Drop)]
pub struct Reader {
    pub mode: Mode,
    pub starts: Vec<u32>,
    pub lens: Vec<u8>,
    pub head: HeadItems,
    pub sections: Sections,
    pub alloc: Global,
}

impl Reader {
    /// Before the first token.
    pub(crate) fn new(alloc: Global) -> Reader
        ensures state { state_of result ≡ first_state }
        ensures starts { result.starts.items ≡ [] }
        ensures lens { result.lens.items ≡ [] }
    {
        Reader {
            mode: Mode::Start,
            starts: Vec::new(alloc),
            lens: Vec::new(alloc),
            head: HeadItems::new(alloc),
            sections: Sections::new(alloc),
            alloc,
        }
    }

    /// Does what the step says, if it is no refusal.
    #[inline(always)]
    pub(crate) fn apply(&mut self, step: &Step) -> Result<bool, OutOfMemory>
        ensures state { IfOk result (Steps (state_of self.old) (state_of self.new) step.now) }
        ensures starts { self.new.starts ≡ self.old.starts }
        ensures lens { self.new.lens ≡ self.old.lens }
    {
        match *step {
            Step::Refuse => return Ok(false),
            Step::Go(mode) => self.mode = mode,
            Step::Put(mode, item) => {
                self.mode = mode;
                self.head.put(item)?;
            }
            Step::Open(net) => {
                self.mode = Mode::NetTotal;
                self.sections.open(net);
            }
            Step::Join(mode, conn) => return self.join(mode, conn),
            Step::AddCap(cap) => {
                self.mode = Mode::Caps;
                self.sections.push_cap(cap)?;
            }
            Step::AddRes(res) => {
                self.mode = Mode::Ress;
                self.sections.push_res(res)?;
            }
            Step::Close(last) => {
                self.mode = Mode::Sections;
                if let Some(conn) = last {
                    self.sections.push_conn(conn)?;
                }
                self.sections.close()?;
            }
        }
        Ok(true)
    }

    /// Does the step where the test holds, and refuses the token elsewhere.
    #[inline(always)]
    pub(crate) fn apply_if(&mut self, test: bool, step: &Step) -> Result<bool, OutOfMemory>
        ensures state { IfOk result (Steps (state_of self.old) (state_of self.new) (or_else test step.now Refuse)) }
        ensures starts { self.new.starts ≡ self.old.starts }
        ensures lens { self.new.lens ≡ self.old.lens }
    {
        if test { self.apply(step) } else { Ok(false) }
    }

    /// Keeps a connection that has ended.
    #[inline(always)]
    pub(crate) fn join(&mut self, mode: Mode, conn: ConnAt) -> Result<bool, OutOfMemory>
        ensures state { IfOk result (Steps (state_of self.old) (state_of self.new) (Step.Join mode conn)) }
        ensures starts { self.new.starts ≡ self.old.starts }
        ensures lens { self.new.lens ≡ self.old.lens }
    {
        self.mode = mode;
        self.sections.push_conn(conn)?;
        Ok(true)
    }
}

impl TokenReader for Reader {
    type Kind = Kind;

    type Value = Reader;

    type Cause = SpefEnd;

    ghost cut_at = { cut_at };

    ghost IsSound = { λ number reader. ⊤ };

    ghost Leads = { Leads };

    ghost Stops = { Stops };

    ghost Makes = { Makes };

    #[inline]
    fn cut(bytes: &[u8], first: u8, rest: &[u8]) -> Cut<Kind> {
        cut_at(bytes, first, rest)
    }

    #[inline(always)]
    fn front(bytes: &[u8], first: u8, rest: &[u8]) -> Front<Kind> {
        front_at(bytes, first, rest)
    }

    #[inline]
    fn pass(&mut self, _bytes: &[u8]) {}

    fn take(
        &mut self,
        number: u64,
        start: usize,
        _kind: Kind,
        bytes: &[u8],
    ) -> Result<Option<SpefEnd>, OutOfMemory> {
        push(&mut self.starts, start as u32)?;
        push(&mut self.lens, short_len(bytes))?;
        if self.take_token(number as u32, bytes)? {
            Ok(None)
        } else {
            Ok(Some(refusal(self.alloc, number, bytes)))
        }
    }

    fn finish(self) -> Result<Result<Reader, SpefEnd>, OutOfMemory> {
        if self.mode.may_end() {
            Ok(Ok(self))
        } else {
            let token = self.starts.len() as u64 + 1;
            Ok(Err(SpefEnd::Syntax { token }))
        }
    }

    ghost within = { cut_within };
}
