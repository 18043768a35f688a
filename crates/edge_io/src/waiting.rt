ghost use Rattle.std.specs.Prelude.{◌≡◌, ◌+◌, ◌≤◌, [], ◌++◌, length, take, OnOk};
ghost use Rattle.edge_io.specs.Gathering.{Pushes};
ghost use Rattle.edge_io.specs.Writing.{Writes};

use crate::failures::Failed;
use crate::sinks::Sink;
use crate::writing::write_all;
use std::marker::Model;

/// How many bytes wait at most.
const SIZE: usize = 8192;

/// Bytes that wait to be written, so that a sink is called with large pieces. Contracts see the list of them.
///
/// It is a sink itself, which takes a piece where there is room for all of it, and fails at any other. So a text of which all is to
/// wait or nothing is tried with `write`, and taken back by `cut_to`. It takes its 8192 bytes with it, and no memory.
#[derive(Drop)]
pub struct WaitingBytes {
    bytes: [u8; SIZE],
    filled: usize,
}

impl Model for WaitingBytes {
    ghost use Rattle.std.specs.Prelude.{ℕ, ◌≤◌, List, take};

    ghost Value = { List ℕ };

    ghost view = { λ waiting. take waiting.filled waiting.bytes };

    ghost invariant = { λ waiting. waiting.filled ≤ 8192 };
}

impl WaitingBytes {
    /// Nothing waits.
    #[inline]
    pub fn new() -> WaitingBytes
        ensures { result ≡ [] }
    {
        WaitingBytes {
            bytes: [0; SIZE],
            filled: 0,
        }
    }

    /// How many bytes wait.
    #[inline]
    pub fn len(&self) -> usize
        ensures { result ≡ length self.now }
    {
        self.filled
    }

    /// Puts the bytes after those that wait. Where there is no room for them, those are written first, and bytes that never have
    /// room are written behind them. `Failed` comes only where the sink's count of faults rose.
    #[inline(always)]
    pub fn push<O: Sink>(&mut self, sink: &mut O, bytes: &[u8]) -> Result<(), Failed>
        ensures pushes { Pushes (self.old ++ bytes.now) self.new (O.written sink.old) (O.written sink.new) (O.faults sink.old)
            (O.faults sink.new) result }
    {
        if bytes.len() <= SIZE - self.filled {
            self.keep(bytes);
            return Ok(());
        }
        self.push_behind(sink, bytes)
    }

    // The same where there is no room: those that wait are written first. It stands apart, so that the usual way of a push is short
    // enough to stand at each call.
    #[inline(never)]
    fn push_behind<O: Sink>(&mut self, sink: &mut O, bytes: &[u8]) -> Result<(), Failed>
        ensures pushes { Pushes (self.old ++ bytes.now) self.new (O.written sink.old) (O.written sink.new) (O.faults sink.old)
            (O.faults sink.new) result }
    {
        self.flush(sink)?;
        if bytes.len() <= SIZE {
            self.keep(bytes);
        } else {
            write_all(sink, bytes)?;
        }
        Ok(())
    }

    /// Writes all that wait.
    pub fn flush<O: Sink>(&mut self, sink: &mut O) -> Result<(), Failed>
        ensures emptied { OnOk result (self.new ≡ []) }
        ensures writes { Writes self.old (O.written sink.old) (O.written sink.new) (O.faults sink.old) (O.faults sink.new) result }
    {
        write_all(sink, &self.bytes[..self.filled])?;
        self.filled = 0;
        Ok(())
    }

    /// Takes back all but the first `count` bytes that wait.
    #[inline]
    pub fn cut_to(&mut self, count: usize)
        requires { count ≤ length self.old }
        ensures { self.new ≡ take count self.old }
    {
        self.filled = count;
    }

    #[inline]
    fn keep(&mut self, bytes: &[u8])
        requires { length self.old + length bytes.now ≤ SIZE }
        ensures { self.new ≡ self.old ++ bytes.now }
    {
        let end = self.filled + bytes.len();
        self.bytes[self.filled..end].copy_from_slice(bytes);
        self.filled = end;
    }
}

impl Sink for WaitingBytes {
    ghost use Rattle.std.specs.Prelude.{◌-◌, ◌^◌, Some};

    ghost written = { λ waiting. Some waiting };

    // It counts no faults: the count stands at its last value.
    ghost faults = { λ _. 2 ^ 64 - 1 };

    #[inline]
    fn write(&mut self, piece: &[u8]) -> Result<usize, Failed> {
        if piece.len() > SIZE - self.filled {
            return Err(Failed);
        }
        self.keep(piece);
        Ok(piece.len())
    }
}
