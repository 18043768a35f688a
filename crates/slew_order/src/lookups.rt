//! The look-ups of an edge of an arc.
ghost use Rattle.std.specs.Prelude.{◌≡◌, ◌+◌, ◌≤◌, is_ok, IfOk, IfSome, Some, unsigned_abs};
ghost use Rattle.nldm_lookup.specs.Interpolant.{most_in};
ghost use Rattle.slew_states.specs.PinState.{most};
ghost use Rattle.slew_order.specs.Lookups.{lookup_of};
ghost use Rattle.slew_order.specs.Timings.{if_both, first_end, lookups_of, made_of, refused_of};

use cell_models::{EdgeTables, Part};
use corner_set::Beyond;
use delay_units::{Atto, Farads};
use edge_io::Steps;
use nldm_lookup::{Grain, LookupEnd, Table};
use std::sync::ledger::Ledger;

/// What both look-ups of an edge of an arc answer: the delay in femtoseconds, and the transition in attoseconds.
#[derive(Clone, Copy)]
pub struct EdgeLookups {
    pub delay: Result<i64, LookupEnd>,
    pub transition: Result<i64, LookupEnd>,
}

/// A look-up of an edge of an arc that is refused, and why.
#[derive(Clone, Copy)]
pub struct PartEnd {
    pub part: Part,
    pub end: LookupEnd,
}

/// A look-up of a table, at a slew in attoseconds. It is at most 32 steps.
#[tactic(auto, using(crate::proofs::LookupValues::lookup_only, crate::proofs::Looking::lookup_small))]
pub(crate) fn look_up<L: Ledger>(
    table: &Table,
    slew: u64,
    load: Farads,
    grain: Grain,
    beyond: Beyond,
    steps: &mut Steps<L>,
) -> Result<i64, LookupEnd>
    requires slew { slew ≤ most }
    ensures value { result ≡ lookup_of table.now slew load.0 grain beyond }
    ensures small { IfOk result (λ value. unsigned_abs value ≤ most_in grain) }
    ensures steps { steps.new ≤ steps.old + 32 }
{
    table.whole();
    table.lookup(Atto(slew as i64), load, grain, beyond, steps)
}

/// Both look-ups of an edge, at a slew in attoseconds. They are at most 64 steps.
pub(crate) fn look_up_both<L: Ledger>(
    tables: &EdgeTables,
    slew: u64,
    load: Farads,
    beyond: Beyond,
    steps: &mut Steps<L>,
) -> EdgeLookups
    requires slew { slew ≤ most }
    ensures value { result ≡ lookups_of beyond tables.now slew load.0 }
    ensures small { IfOk result.transition (λ value. unsigned_abs value ≤ most) }
    ensures steps { steps.new ≤ steps.old + 64 }
{
    let delay = look_up(&tables.delay, slew, load, Grain::Femto, beyond, steps);
    let transition = look_up(&tables.slew, slew, load, Grain::Atto, beyond, steps);
    EdgeLookups { delay, transition }
}

// Whether a look-up has a value, at a slew in attoseconds. It is at most 32 steps.
fn has_value<L: Ledger>(
    table: &Table,
    slew: u64,
    load: Farads,
    grain: Grain,
    beyond: Beyond,
    steps: &mut Steps<L>,
) -> bool
    requires slew { slew ≤ most }
    ensures value { is_ok (lookup_of table.now slew load.0 grain beyond) ≡ result }
    ensures steps { steps.new ≤ steps.old + 32 }
{
    table.whole();
    table.has_value(Atto(slew as i64), load, grain, beyond, steps)
}

/// The transition of an edge in attoseconds, at a slew in attoseconds, where neither look-up is refused. They are at most 64 steps.
pub(crate) fn transition_of<L: Ledger>(
    tables: &EdgeTables,
    slew: u64,
    load: Farads,
    beyond: Beyond,
    steps: &mut Steps<L>,
) -> Option<u64>
    requires slew { slew ≤ most }
    ensures value { result ≡ made_of (Some (lookups_of beyond tables.now slew load.0)) }
    ensures small { IfSome result (λ made. made ≤ most) }
    ensures steps { steps.new ≤ steps.old + 64 }
{
    if !has_value(&tables.delay, slew, load, Grain::Femto, beyond, steps) {
        return None;
    }
    match look_up(&tables.slew, slew, load, Grain::Atto, beyond, steps) {
        Ok(transition) => Some(transition.unsigned_abs()),
        Err(_) => None,
    }
}

impl EdgeLookups {
    /// The first look-up that is refused, the delay first.
    pub(crate) fn refused(self) -> Option<PartEnd>
        ensures { result ≡ refused_of (Some self) }
    {
        match (self.delay, self.transition) {
            (Err(end), _) => Some(PartEnd {
                part: Part::Delay,
                end,
            }),
            (Ok(_), Err(end)) => Some(PartEnd {
                part: Part::Transition,
                end,
            }),
            (Ok(_), Ok(_)) => None,
        }
    }
}
