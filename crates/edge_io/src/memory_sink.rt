ghost use Rattle.std.specs.Prelude.{◌≡◌, ℕ, ◌+◌, ◌-◌, ◌^◌, ◌≤◌, ◌<◌, ◌⊎◌, ◌&&◌, ◌||◌, ◌↔◌, [], ◌∷◌, ◌++◌, List, length, take, min, Option, Some, Ok, nat_lt, nat_le, IsTrue, IsErr, IfOk, OnOk, OnErr};
ghost use Rattle.edge_io.specs.Calls.{Calls, fails_next, counted_call};
ghost use Rattle.edge_io.specs.Counts.{Rose};
ghost use Rattle.edge_io.specs.MemSink.{SinkState, empty_sink, fails_write};

use crate::calls::CallPlan;
use crate::failures::{Failed, OutOfMemory};
use crate::sinks::Sink;
use std::alloc::Global;
use std::marker::Model;

/// A sink in memory, to try a program with: it tells everything, takes at most so many bytes in a
/// write and so many in all, and fails at the writes that it was told to fail at.
#[derive(Drop)]
pub struct MemSink {
    written: Vec<u8>,
    most: usize,
    room: usize,
    plan: CallPlan,
}

impl Model for MemSink {
    ghost use Rattle.std.specs.Prelude.{◌≤◌, vec_len, vec_capacity};
    ghost use Rattle.edge_io.specs.MemSink.{SinkState};

    ghost Value = { SinkState };

    ghost view = { λ sink. record { written = sink.written.items; most = sink.most; room = sink.room; calls = sink.plan } };

    ghost invariant = { λ sink. (vec_len sink.written ≤ sink.room) × (sink.room ≤ vec_capacity sink.written) × (1 ≤ sink.most) };
}

impl MemSink {
    /// A sink that has taken nothing yet. It takes the memory for `room` bytes here, and none later.
    pub fn new(alloc: Global, most: usize, room: usize) -> Result<MemSink, OutOfMemory>
        requires most { 1 ≤ most }
        requires room { room < 2 ^ 40 }
        ensures { IfOk result (λ sink. sink ≡ empty_sink most room) }
    {
        let written = Vec::with_capacity(alloc, room)?;
        Ok(MemSink {
            written,
            most,
            room,
            plan: CallPlan::new(alloc),
        })
    }

    /// The write of this number, from 1, is to fail too.
    pub fn fail_at(&mut self, call: u64) -> Result<(), OutOfMemory>
        ensures ok { OnOk result (self.new ≡ record self.old
            { calls = record self.old.calls { failing = self.old.calls.failing ++ call ∷ [] } }) }
        ensures err { OnErr result (self.new ≡ self.old) }
    {
        self.plan.fail_at(call)
    }

    /// What was written so far.
    pub fn written(&self) -> &[u8]
        ensures { result.now ≡ self.now.written }
    {
        self.written.as_slice()
    }
}

impl Sink for MemSink {
    ghost written = { λ sink. Some sink.written };

    ghost faults = { λ sink. sink.calls.faults };

    fn write(&mut self, piece: &[u8]) -> Result<usize, Failed>
        ensures most { self.new.most ≡ self.old.most }
        ensures room { self.new.room ≡ self.old.room }
        ensures count { IfOk result (λ count. count
            ≡ min self.old.most (min (length piece.now) (self.old.room - length self.old.written))) }
        ensures bound { IfOk result (λ count. count ≤ length piece.now) }
        ensures some { IfOk result (λ count. 0 < length piece.now → 0 < count) }
        ensures taken { IfOk result (λ count. self.new.written ≡ self.old.written ++ take count piece.now) }
        ensures empty { length piece.now ≡ 0 → result ≡ Ok 0 }
        ensures unchanged { OnErr result (self.new.written ≡ self.old.written) }
        ensures later { self.old.calls.faults ≤ self.new.calls.faults }
        ensures cause { OnErr result (Rose self.old.calls.faults self.new.calls.faults) }

        // It fails exactly at the writes that are to fail and where no room is left, other than one
        // of an empty piece, and the count of faults rises exactly there.
        ensures fails { IsErr result
            ↔ ((0 < length piece.now) × (IsTrue (fails_next self.old.calls) ⊎ (self.old.room ≤ length self.old.written))) }
        ensures calls { self.new.calls ≡ counted_call (fails_write self.old (length piece.now)) self.old.calls }
    {
        let fails = self.plan.begin();
        if piece.is_empty() {
            return Ok(0);
        }
        if fails || self.room <= self.written.len() {
            self.plan.fault();
            return Err(Failed);
        }
        let count = self
            .most
            .min(piece.len().min(self.room - self.written.len()));
        match self.written.extend_from_slice(&piece[..count]) {
            Ok(()) => Ok(count),
            // It never comes here, since the room was taken when the sink was made.
            Err(_) => Err(Failed),
        }
    }
}
