ghost use Rattle.std.specs.Prelude.{◌≡◌, ℕ, ◌∷◌, ◌++◌, [], OnOk, OnErr};
ghost use Rattle.edge_io.specs.Calls.{Calls, no_calls, fails_next};
ghost use Rattle.edge_io.specs.Counts.{raised};

use crate::failures::OutOfMemory;
use crate::lists::push;
use std::alloc::Global;
use std::marker::Model;

/// The calls made so far of something in memory, and which of them are to fail.
#[derive(Drop)]
pub struct CallPlan {
    failing: Vec<u64>,
    count: u64,
    faults: u64,
}

impl Model for CallPlan {
    ghost use Rattle.edge_io.specs.Calls.{Calls};

    ghost Value = { Calls };

    ghost view = { λ plan. record { failing = plan.failing.items; count = plan.count; faults = plan.faults } };
}

impl CallPlan {
    /// No call so far, and none that is to fail.
    pub fn new(alloc: Global) -> CallPlan
        ensures { result ≡ no_calls }
    {
        CallPlan {
            failing: Vec::new(alloc),
            count: 0,
            faults: 0,
        }
    }

    /// The call of this number, from 1, is to fail too.
    pub fn fail_at(&mut self, call: u64) -> Result<(), OutOfMemory>
        ensures ok { OnOk result (self.new ≡ record self.old { failing = self.old.failing ++ call ∷ [] }) }
        ensures err { OnErr result (self.new ≡ self.old) }
    {
        push(&mut self.failing, call)
    }

    /// Counts a call, and tells whether it is one that is to fail.
    pub fn begin(&mut self) -> bool
        ensures fails { result ≡ fails_next self.old }
        ensures counted { self.new ≡ record self.old { count = raised 1 self.old.count } }
    {
        self.count = next(self.count);
        self.failing.as_slice().contains(&self.count)
    }

    /// Counts a fault.
    pub fn fault(&mut self)
        ensures { self.new ≡ record self.old { faults = raised 1 self.old.faults } }
    {
        self.faults = next(self.faults);
    }
}

/// One more, or the same at the last value.
pub fn next(count: u64) -> u64
    ensures { result ≡ raised 1 count }
{
    count.saturating_add(1)
}
