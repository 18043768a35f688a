//! A table over the slew of an input and the load of an output.
ghost use Rattle.std.specs.Prelude.{◌≡◌, ℤ, pos, ◌+ℤ◌, ◌*ℤ◌, ◌+◌, ◌*◌, ◌^◌, ◌<◌, ◌≤◌, ◌≤ℤ◌, length, All, unsigned_abs, Result, is_ok, IsTrue, IfOk, OnOk, OnErr, IfErr};
ghost use Rattle.nldm_lookup.specs.Axes.{most};
ghost use Rattle.nldm_lookup.specs.Betweens.{IsPassed, width};
ghost use Rattle.nldm_lookup.specs.BetweenOf.{between_of};
ghost use Rattle.nldm_lookup.specs.Tables.{IsSmall, IsTable, IsTableFault, place_in, value_at};
ghost use Rattle.nldm_lookup.specs.Interpolant.{IsLookup, attos_in, most_in, not_below, weighed};
ghost use Rattle.nldm_lookup.specs.Rows.{IsOn, row_at, size_of};

use crate::axis::Axis;
use crate::between::Between;
use crate::faults::{LookupEnd, TableFault, Which};
use crate::grain::Grain;
use crate::quotient::rounded;
use corner_set::Beyond;
use delay_units::{Atto, Farads};
use edge_io::{OutOfMemory, Steps};
use std::alloc::Global;
use std::marker::Model;
use std::rc::RcSlice;
use std::sync::ledger::Ledger;

/// Which variable is the first of a table's template, whose index changes slowest in the list of values.
#[derive(Clone, Copy)]
pub enum Order {
    SlewFirst,
    LoadFirst,
}

/// A value for each point of the slew and each of the load. Contracts see the axes, the order and the list of values. Copies share
/// the points and the values.
#[derive(Drop)]
pub struct Table {
    slew: Axis,
    load: Axis,
    order: Order,
    values: RcSlice<i64>,
}

impl Model for Table {
    ghost use Rattle.std.specs.Rc.{rc_slice_items};
    ghost use Rattle.nldm_lookup.specs.Tables.{TimingTable, IsTable};

    ghost Value = { TimingTable };

    ghost view = { λ t. record { slew = t.slew; load = t.load; order = t.order; values = rc_slice_items t.values } };

    ghost invariant = { λ t. IsTable (record { slew = t.slew; load = t.load; order = t.order; values = rc_slice_items t.values }) };
}

// A value, or a sum of values by their weights, by one more weight.
fn by_weight(value: i128, weight: i64) -> i128
    requires value { unsigned_abs value ≤ 2 * most * most }
    requires weight { unsigned_abs weight ≤ most }
    ensures { result ≡ value *ℤ weight }
{
    value * weight as i128
}

// The whole weight, in parts of a grain.
fn divisor(slew: Between, load: Between, grain: Grain) -> u128
    requires some_slew { pos 1 ≤ℤ width (between_of slew) }
    requires slew { width (between_of slew) ≤ℤ pos most }
    requires some_load { pos 1 ≤ℤ width (between_of load) }
    requires load { width (between_of load) ≤ℤ pos most }
    ensures value { pos result ≡ (width (between_of slew) *ℤ width (between_of load)) *ℤ pos (attos_in grain) }
    ensures some { 1 ≤ result }
    ensures small { result ≤ 10 ^ 27 }
{
    slew.width() * load.width() * grain.attos()
}

// A quotient of weighed values as the value of the table, or nothing where it is more than a microsecond in size.
#[inline]
#[tactic(auto, using(crate::proofs::Answering::natural_stays))]
fn in_time(rounded: i128, grain: Grain, beyond: Beyond) -> Result<i64, LookupEnd>
    ensures value { IfOk result (λ value. value ≡ not_below beyond grain rounded) }
    ensures small { IfOk result (λ value. unsigned_abs value ≤ most_in grain) }
    ensures past_time { IfErr result (λ end. end ≡ LookupEnd.PastTime) }
    ensures large { OnErr result (most_in grain < unsigned_abs (not_below beyond grain rounded)) }
{
    if 0 <= rounded && rounded <= grain.most() as i128 {
        return Ok(rounded as i64);
    }
    extended_value(rounded, grain, beyond)
}

// The same of any quotient. One that is negative or large is extended, as a rule.
#[inline(never)]
fn extended_value(rounded: i128, grain: Grain, beyond: Beyond) -> Result<i64, LookupEnd>
    ensures value { IfOk result (λ value. value ≡ not_below beyond grain rounded) }
    ensures small { IfOk result (λ value. unsigned_abs value ≤ most_in grain) }
    ensures past_time { IfErr result (λ end. end ≡ LookupEnd.PastTime) }
    ensures large { OnErr result (most_in grain < unsigned_abs (not_below beyond grain rounded)) }
{
    let value = match (beyond, grain) {
        (Beyond::Extend, Grain::Atto) => rounded.max(0),
        _ => rounded,
    };
    if value.unsigned_abs() > grain.most() {
        return Err(LookupEnd::PastTime);
    }
    Ok(value as i64)
}

impl Table {
    /// The table of some values in attoseconds, each at most 10^12 in size, in the order of the file (Liberty, `values`).
    pub fn new(
        alloc: Global,
        slew: Axis,
        load: Axis,
        order: Order,
        values: &[i64],
    ) -> Result<Table, TableFault>
        requires { All IsSmall values.now }
        ensures ok { IfOk result (λ table. table ≡ record { slew = slew; load = load; order = order; values = values.now }) }
        // A wrong count is refused; so a right one is not, unless memory ran out.
        ensures count { OnOk result (length values.now ≡ length slew * length load) }
        ensures refused { IfErr result (IsTableFault slew load values.now) }
    {
        let want = slew.len() * load.len();
        if values.len() != want {
            return Err(TableFault::ValueCount {
                want,
                got: values.len(),
            });
        }
        match RcSlice::from_slice(alloc, values) {
            Ok(values) => Ok(Table {
                slew,
                load,
                order,
                values,
            }),
            Err(_) => Err(TableFault::OutOfMemory),
        }
    }

    /// A table of the same axes and values, which it shares. It takes counts and no memory.
    pub fn copied(&self) -> Result<Table, OutOfMemory>
        ensures { IfOk result (λ table. table ≡ self.now) }
    {
        let values = self.values.clone()?;
        Ok(Table {
            slew: self.slew.copied()?,
            load: self.load.copied()?,
            order: self.order,
            values,
        })
    }

    /// The law of tables, which its contract states: their axes rise, and they have a value for each pair of points, none past a
    /// microsecond. It does nothing when it is called.
    pub fn whole(&self)
        ensures { IsTable self.now }
    {
        let _ = &self.values;
    }

    // The place of the value at a point of the slew and one of the load.
    fn place_of(&self, slew: usize, load: usize) -> usize
        requires slew { slew < length self.now.slew }
        requires load { load < length self.now.load }
        ensures place { result ≡ place_in self.now.order self.now slew load }
        ensures within { result < length self.now.values }
    {
        match self.order {
            Order::SlewFirst => slew * self.load.len() + load,
            Order::LoadFirst => load * self.slew.len() + slew,
        }
    }

    // The value there. It is one step.
    fn value<L: Ledger>(&self, slew: usize, load: usize, steps: &mut Steps<L>) -> i128
        requires slew { slew < length self.now.slew }
        requires load { load < length self.now.load }
        ensures value { result ≡ value_at self.now slew load }
        ensures small { unsigned_abs result ≤ most }
        ensures step { steps.new ≡ steps.old + 1 }
    {
        steps.tick();
        self.values.as_slice()[self.place_of(slew, load)] as i128
    }

    // The values at a point of the slew, by the weights of the load's neighbours. It takes one step, or two.
    fn row<L: Ledger>(&self, slew: usize, load: Between, steps: &mut Steps<L>) -> i128
        requires slew { slew < length self.now.slew }
        requires load { IsOn self.now.load (between_of load) }
        ensures value { result ≡ row_at self.now slew (between_of load) }
        ensures small { unsigned_abs result ≤ most * size_of (between_of load) }
        ensures forward { steps.old + 1 ≤ steps.new }
        ensures steps { steps.new ≤ steps.old + 2 }
    {
        let low = by_weight(self.value(slew, load.place, steps), load.low);
        if load.high == 0 {
            return low;
        }
        low + by_weight(self.value(slew, load.place + 1, steps), load.high)
    }

    // The values around, by their weights. It takes one step to four.
    fn weighed<L: Ledger>(&self, slew: Between, load: Between, steps: &mut Steps<L>) -> i128
        requires slew { IsOn self.now.slew (between_of slew) }
        requires load { IsOn self.now.load (between_of load) }
        ensures value { result ≡ weighed self.now (between_of slew) (between_of load) }
        ensures small { unsigned_abs result ≤ most * size_of (between_of load) * size_of (between_of slew) }
        ensures forward { steps.old + 1 ≤ steps.new }
        ensures steps { steps.new ≤ steps.old + 4 }
    {
        let low = by_weight(self.row(slew.place, load, steps), slew.low);
        if slew.high == 0 {
            return low;
        }
        low + by_weight(self.row(slew.place + 1, load, steps), slew.high)
    }

    // Whether a slew and a load are past no end of an axis. It takes at most four steps.
    fn spans<L: Ledger>(&self, slew: u64, load: Farads, steps: &mut Steps<L>) -> bool
        ensures slew { IsTrue result → ¬ IsPassed self.now.slew slew }
        ensures load { IsTrue result → ¬ IsPassed self.now.load load.0 }
        ensures whole { IsTable self.now }
        ensures steps { steps.new ≤ steps.old + 4 }
    {
        self.slew.spans(slew, steps) && self.load.spans(load.0, steps)
    }

    // What `lookup` answers. It takes at most 28 steps.
    fn interpolate<L: Ledger>(
        &self,
        slew: Atto,
        load: Farads,
        grain: Grain,
        beyond: Beyond,
        steps: &mut Steps<L>,
    ) -> Result<i64, LookupEnd>
        requires not_negative { pos 0 ≤ℤ slew.0 }
        requires small { slew.0 ≤ℤ pos most }
        ensures answer { IsLookup self.now (unsigned_abs slew.0) load.0 grain beyond result }
        ensures only { (other : Result ℤ LookupEnd) → IsLookup self.now (unsigned_abs slew.0) load.0 grain beyond other → other ≡ result }
        ensures some_step { steps.old + 1 ≤ steps.new }
        ensures steps { steps.new ≤ steps.old + 28 }
    {
        let slew = slew.0.unsigned_abs();
        let on_slew = self.slew.between(Which::Slew, slew, beyond, steps)?;
        let on_load = self.load.between(Which::Load, load.0, beyond, steps)?;
        let sum = self.weighed(on_slew, on_load, steps);
        let value = rounded(sum, divisor(on_slew, on_load, grain));
        in_time(value, grain, beyond)
    }

    /// The value at a slew and a load: bilinear between the neighbouring points of the axes, and rounded once, half up, to whole grains.
    /// An axis of one point is constant in its direction. Past the end of a longer axis `beyond` decides. The slew is from 0 to
    /// 10^12 attoseconds.
    ///
    /// The first end that holds is answered: the slew outside, the load outside, the value past time.
    ///
    /// It takes a step for each point and each value that it reads, at least 1 and at most 32, and no memory.
    pub fn lookup<L: Ledger>(
        &self,
        slew: Atto,
        load: Farads,
        grain: Grain,
        beyond: Beyond,
        steps: &mut Steps<L>,
    ) -> Result<i64, LookupEnd>
        requires not_negative { pos 0 ≤ℤ slew.0 }
        requires small { slew.0 ≤ℤ pos most }
        ensures answer { IsLookup self.now (unsigned_abs slew.0) load.0 grain beyond result }
        ensures only { (other : Result ℤ LookupEnd) → IsLookup self.now (unsigned_abs slew.0) load.0 grain beyond other → other ≡ result }
        ensures some_step { steps.old + 1 ≤ steps.new }
        ensures steps { steps.new ≤ steps.old + 32 }
    {
        self.interpolate(slew, load, grain, beyond, steps)
    }

    /// Whether a lookup has a value. Where the slew and the load are past no end of an axis it has one, which is not worked out.
    ///
    /// It takes at most 32 steps, and no memory.
    pub fn has_value<L: Ledger>(
        &self,
        slew: Atto,
        load: Farads,
        grain: Grain,
        beyond: Beyond,
        steps: &mut Steps<L>,
    ) -> bool
        requires not_negative { pos 0 ≤ℤ slew.0 }
        requires small { slew.0 ≤ℤ pos most }
        ensures value { (answer : Result ℤ LookupEnd) → IsLookup self.now (unsigned_abs slew.0) load.0 grain beyond answer
            → is_ok answer ≡ result }
        ensures steps { steps.new ≤ steps.old + 32 }
    {
        if self.spans(slew.0.unsigned_abs(), load, steps) {
            return true;
        }
        self.interpolate(slew, load, grain, beyond, steps).is_ok()
    }
}
