ghost use Rattle.std.specs.Prelude.{◌≡◌, ◌≤◌, ◌<◌, length, None, Ok, IfOk, OnOk, OnErr};
ghost use Rattle.edge_io.specs.Counts.{raised};

use crate::calls::next;
use crate::failures::Failed;
use crate::sinks::Sink;
use std::io::{Print, Stderr, Stdout};
use std::marker::Model;

/// The standard output. It tells nothing of what was written.
///
/// Every error of the system is a fault, and so is a write of some bytes that takes none of them. The
/// count of faults stands still at 2 ^ 64 - 1.
#[derive(Drop)]
pub struct StdOut {
    to: Stdout,
    faults: u64,
}

impl Model for StdOut {
    ghost use Rattle.std.specs.Prelude.{ℕ};

    ghost Value = { ℕ };

    ghost view = { λ stream. stream.faults };
}

impl StdOut {
    /// The standard output of the runtime, with no fault so far.
    pub fn new(to: Stdout) -> StdOut
        ensures { result ≡ 0 }
    {
        StdOut { to, faults: 0 }
    }
}

impl Sink for StdOut {
    ghost written = { λ _. None };

    ghost faults = { λ faults. faults };

    fn write(&mut self, piece: &[u8]) -> Result<usize, Failed> {
        write_some(&self.to, &mut self.faults, piece)
    }
}

/// The standard error. It tells nothing of what was written.
///
/// Every error of the system is a fault, and so is a write of some bytes that takes none of them. The
/// count of faults stands still at 2 ^ 64 - 1.
#[derive(Drop)]
pub struct StdErr {
    to: Stderr,
    faults: u64,
}

impl Model for StdErr {
    ghost use Rattle.std.specs.Prelude.{ℕ};

    ghost Value = { ℕ };

    ghost view = { λ stream. stream.faults };
}

impl StdErr {
    /// The standard error of the runtime, with no fault so far.
    pub fn new(to: Stderr) -> StdErr
        ensures { result ≡ 0 }
    {
        StdErr { to, faults: 0 }
    }
}

impl Sink for StdErr {
    ghost written = { λ _. None };

    ghost faults = { λ faults. faults };

    fn write(&mut self, piece: &[u8]) -> Result<usize, Failed> {
        write_some(&self.to, &mut self.faults, piece)
    }
}

/// Writes a front of the piece, or counts a fault.
fn write_some<P: Print>(to: &P, faults: &mut u64, piece: &[u8]) -> Result<usize, Failed>
    ensures bound { IfOk result (λ count. count ≤ length piece.now) }
    ensures some { IfOk result (λ count. 0 < length piece.now → 0 < count) }
    ensures empty { length piece.now ≡ 0 → result ≡ Ok 0 }
    ensures ok { OnOk result (faults.new ≡ faults.old) }
    ensures err { OnErr result (faults.new ≡ raised 1 faults.old) }
{
    if piece.is_empty() {
        return Ok(0);
    }
    match to.write_some(piece) {
        Ok(count) if count > 0 => Ok(count),
        _ => {
            *faults = next(*faults);
            Err(Failed)
        }
    }
}
