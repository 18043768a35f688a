//! The reader: takes one token after another.
ghost use Rattle.std.specs.Prelude.{◌≡◌};
ghost use Rattle.std.specs.Option.{option_map};
ghost use Rattle.verilog_netlist.specs.Steps.{Go, Put};
ghost use Rattle.verilog_netlist.specs.Modes.{first_state, finish};
ghost use Rattle.verilog_netlist.specs.ReaderStates.{state_of, Does, Finishes};

use crate::entries::Entry;
use crate::modes::Mode;
use edge_io::OutOfMemory;
use edge_io::lists::push;
use std::alloc::Global;

/// What is waited for, and what has been said.
#[derive(Drop)]
pub struct Reader {
    pub mode: Mode,
    pub entries: Vec<Entry>,
}

impl Reader {
    /// Before the first token.
    pub(crate) fn new(alloc: Global) -> Reader
        ensures { state_of result ≡ first_state }
    {
        Reader {
            mode: Mode::Modules,
            entries: Vec::new(alloc),
        }
    }

    /// Waits for something else.
    #[inline(always)]
    pub(crate) fn go(&mut self, mode: Mode) -> Result<bool, OutOfMemory>
        ensures { Does self.old (Go mode) result self.new }
    {
        self.mode = mode;
        Ok(true)
    }

    /// The same, where the token says something.
    #[inline(always)]
    pub(crate) fn put(&mut self, mode: Mode, entry: Entry) -> Result<bool, OutOfMemory>
        ensures { Does self.old (Put mode entry) result self.new }
    {
        self.mode = mode;
        push(&mut self.entries, entry)?;
        Ok(true)
    }

    /// What has been said, where the file may end.
    pub(crate) fn finish(self) -> Option<Vec<Entry>>
        ensures { Finishes (finish (state_of self)) (option_map (λ entries. entries.items) result) }
    {
        match self.mode {
            Mode::Modules => Some(self.entries),
            _ => None,
        }
    }
}
