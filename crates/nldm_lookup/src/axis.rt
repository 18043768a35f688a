//! The points of one variable of a table.
ghost use Rattle.std.specs.Prelude.{◌≡◌, ℕ, ℤ, pos, ◌≤ℤ◌, ◌+◌, ◌-◌, ◌<◌, ◌≤◌, length, map, slice_get, slice_index, Some, All, IsTrue, IfOk, OnOk, IfErr, IfSome, IfNone};
ghost use Rattle.std.specs.Rc.{rc_slice_items};
ghost use Rattle.nldm_lookup.specs.Axes.{IsAxis, IsAxisFault, IsFaultless, FallsAt, most, most_points};
ghost use Rattle.nldm_lookup.specs.AxisEnds.{IsAxisEnd};
ghost use Rattle.nldm_lookup.specs.Betweens.{AreNeighbours, IsBetween, IsPast, IsPassed};
ghost use Rattle.nldm_lookup.specs.BetweenOf.{between_of};
ghost use Rattle.nldm_lookup.specs.Rows.{IsOn};

use crate::between::Between;
use crate::faults::{AxisFault, LookupEnd, Outside, Which};
use corner_set::Beyond;
use edge_io::{OutOfMemory, Steps};
use std::alloc::Global;
use std::marker::Model;
use std::rc::RcSlice;
use std::sync::ledger::Ledger;

/// The most points of an axis.
const MOST_POINTS: usize = 256;

/// The largest quantity that an axis is extended to: a microsecond or a nanofarad.
const MOST: u64 = 1_000_000_000_000;

/// So many halvings leave one of the 255 gaps between so many points.
const HALVINGS: usize = 8;

/// The points of an axis, from 1 to 256, each above the one before: attoseconds of a slew, or 10^-21 F of a load, from 0 to 10^12.
/// Contracts see the list of them. Copies share the points.
#[derive(Drop)]
pub struct Axis {
    points: RcSlice<u64>,
}

impl Model for Axis {
    ghost use Rattle.std.specs.Prelude.{ℕ, List};
    ghost use Rattle.std.specs.Rc.{rc_slice_items};
    ghost use Rattle.nldm_lookup.specs.Axes.{IsAxis};

    ghost Value = { List ℕ };

    ghost view = { λ axis. rc_slice_items axis.points };

    ghost invariant = { λ axis. IsAxis (rc_slice_items axis.points) };
}

// The first place whose point is not above the one before.
fn first_fall(points: &[i64]) -> Option<usize>
    ensures some { IfSome result (λ place. FallsAt points.now place) }
    ensures first { IfSome result (λ place. (earlier : ℕ) → earlier < place → ¬ FallsAt points.now earlier) }
    ensures none { IfNone result ((place : ℕ) → ¬ FallsAt points.now place) }
{
    for place in 1..points.len() {
        if points[place] <= points[place - 1] {
            return Some(place);
        }
    }
    None
}

// The points as they are kept.
fn kept(alloc: Global, points: &[i64]) -> Result<RcSlice<u64>, OutOfMemory>
    requires { All (λ point. pos 0 ≤ℤ point) points.now }
    ensures { IfOk result (λ kept. map pos (rc_slice_items kept) ≡ points.now) }
{
    let mut kept = Vec::with_capacity(alloc, points.len())?;
    for point in points {
        if kept.push(*point as u64).is_err() {
            return Err(OutOfMemory);
        }
    }
    let kept = RcSlice::from_vec(kept)?;
    Ok(kept)
}

impl Axis {
    /// The axis of some points, each from 0 to 10^12, in the order of the file (Liberty, `index_1` and `index_2`).
    pub fn new(alloc: Global, points: &[i64]) -> Result<Axis, AxisFault>
        requires not_negative { All (λ point. pos 0 ≤ℤ point) points.now }
        requires small { All (λ point. point ≤ℤ pos most) points.now }
        ensures ok { IfOk result (λ axis. map pos axis ≡ points.now) }
        // A list with a fault is refused; so one without is not, unless memory ran out.
        ensures faultless { OnOk result (IsFaultless points.now) }
        ensures refused { IfErr result (IsAxisFault points.now) }
    {
        if points.is_empty() {
            return Err(AxisFault::Empty);
        }
        if points.len() > MOST_POINTS {
            return Err(AxisFault::TooLong);
        }
        if let Some(place) = first_fall(points) {
            return Err(AxisFault::NotRising(place));
        }
        match kept(alloc, points) {
            Ok(points) => Ok(Axis { points }),
            Err(_) => Err(AxisFault::OutOfMemory),
        }
    }

    /// An axis of the same points, which it shares. It takes a count and no memory.
    pub fn copied(&self) -> Result<Axis, OutOfMemory>
        ensures { IfOk result (λ axis. axis ≡ self.now) }
    {
        let points = self.points.clone()?;
        Ok(Axis { points })
    }

    /// How many points there are.
    pub(crate) fn len(&self) -> usize
        ensures len { result ≡ length self.now }
        ensures whole { IsAxis self.now }
    {
        self.points.len()
    }

    // A point. It is one step.
    fn point<L: Ledger>(&self, place: usize, steps: &mut Steps<L>) -> u64
        requires { place < length self.now }
        ensures value { slice_get self.now place ≡ Some result }
        ensures index { slice_index self.now place ≡ result }
        ensures small { result ≤ most }
        ensures step { steps.new ≡ steps.old + 1 }
    {
        steps.tick();
        self.points.as_slice()[place]
    }

    /// Whether a quantity is past neither end. It takes at most two steps.
    pub(crate) fn spans<L: Ledger>(&self, quantity: u64, steps: &mut Steps<L>) -> bool
        ensures within { IsTrue result → ¬ IsPassed self.now quantity }
        ensures steps { steps.new ≤ steps.old + 2 }
    {
        let last = self.len() - 1;
        last == 0 || (self.point(0, steps) <= quantity && quantity <= self.point(last, steps))
    }

    /// What is taken for a quantity, or why nothing is. It takes at most 12 steps.
    #[inline(always)]
    pub(crate) fn between<L: Ledger>(
        &self,
        axis: Which,
        quantity: u64,
        beyond: Beyond,
        steps: &mut Steps<L>,
    ) -> Result<Between, LookupEnd>
        ensures between { IfOk result (λ between. IsBetween self.now quantity beyond (between_of between)) }
        ensures near { OnOk result (beyond ≡ Beyond.Extend → IsPassed self.now quantity → quantity ≤ most) }
        ensures end { IfErr result (IsAxisEnd self.now axis quantity beyond) }
        ensures on { IfOk result (λ between. IsOn self.now (between_of between)) }
        ensures some_step { IfErr result (λ _. steps.old + 1 ≤ steps.new) }
        ensures forward { steps.old ≤ steps.new }
        ensures steps { steps.new ≤ steps.old + 12 }
    {
        let last = self.len() - 1;
        if last == 0 {
            return Ok(Between {
                place: 0,
                low: 1,
                high: 0,
            });
        }
        let lowest = self.point(0, steps);
        let highest = self.point(last, steps);
        if quantity < lowest {
            return self.past(axis, quantity, lowest, beyond, steps);
        }
        if highest < quantity {
            return self.past(axis, quantity, highest, beyond, steps);
        }
        Ok(self.neighbours(quantity, quantity, steps))
    }

    // What is taken for a quantity that is past this end. It takes at most 10 steps.
    #[inline(never)]
    fn past<L: Ledger>(
        &self,
        axis: Which,
        quantity: u64,
        end: u64,
        beyond: Beyond,
        steps: &mut Steps<L>,
    ) -> Result<Between, LookupEnd>
        requires whole { IsAxis self.now }
        requires past { IsPast self.now quantity end }
        ensures between { IfOk result (λ between. IsBetween self.now quantity beyond (between_of between)) }
        ensures near { OnOk result (beyond ≡ Beyond.Extend → quantity ≤ most) }
        ensures end { IfErr result (IsAxisEnd self.now axis quantity beyond) }
        ensures on { IfOk result (λ between. IsOn self.now (between_of between)) }
        ensures forward { steps.old ≤ steps.new }
        ensures steps { steps.new ≤ steps.old + 10 }
    {
        match beyond {
            Beyond::Refuse => Err(LookupEnd::Outside(Outside {
                axis,
                value: quantity,
            })),
            Beyond::Edge => Ok(self.neighbours(end, end, steps)),
            Beyond::Extend => {
                if quantity > MOST {
                    return Err(LookupEnd::PastTime);
                }
                Ok(self.neighbours(end, quantity, steps))
            }
        }
    }

    // The neighbouring points around one number, by their weights at another. It takes at most 10 steps.
    #[inline(always)]
    fn neighbours<L: Ledger>(&self, near: u64, at: u64, steps: &mut Steps<L>) -> Between
        requires whole { IsAxis self.now }
        requires some { 1 < length self.now }
        requires first { slice_index self.now 0 ≤ near }
        requires last { near ≤ slice_index self.now (length self.now - 1) }
        requires small { at ≤ most }
        ensures neighbours { AreNeighbours self.now near at (between_of result) }
        ensures on { IsOn self.now (between_of result) }
        ensures forward { steps.old ≤ steps.new }
        ensures steps { steps.new ≤ steps.old + 10 }
    {
        let place = self.gap_of(near, steps);
        let lower = self.point(place, steps);
        let upper = self.point(place + 1, steps);
        Between {
            place,
            low: upper as i64 - at as i64,
            high: at as i64 - lower as i64,
        }
    }

    // The place of the lower of two neighbouring points between which a quantity lies, by halves. It takes at most 8 steps.
    #[inline]
    fn gap_of<L: Ledger>(&self, quantity: u64, steps: &mut Steps<L>) -> usize
        requires some { 1 < length self.now }
        requires first { slice_index self.now 0 ≤ quantity }
        requires last { quantity ≤ slice_index self.now (length self.now - 1) }
        ensures within { result + 1 < length self.now }
        ensures lower { slice_index self.now result ≤ quantity }
        ensures upper { quantity ≤ slice_index self.now (result + 1) }
        ensures forward { steps.old ≤ steps.new }
        ensures steps { steps.new ≤ steps.old + 8 }
    {
        let mut low = 0;
        let mut high = self.len() - 1;
        for _ in 0..HALVINGS {
            if high - low > 1 {
                let middle = low + (high - low) / 2;
                if self.point(middle, steps) <= quantity {
                    low = middle;
                } else {
                    high = middle;
                }
            }
        }
        low
    }
}
