//! The loads of nets and the Elmore sums of their sinks.
ghost use Rattle.std.specs.Prelude.{◌≡◌, ℕ, ◌*◌, ◌+◌, ◌^◌, ◌<◌, length, IfOk};
ghost use Rattle.corner_set.specs.Places.{HasRow};
ghost use Rattle.net_delays.specs.NetTimes.{AreNetTimes, start_in, load_at, elmore_at, elmore_limit, HasNet, HasSink, Fits, AreStarts, LeavesLoads, LeavesElmores};

use corner_set::{CornerSet, Grid};
use delay_units::Farads;
use edge_io::OutOfMemory;
use edge_io::lists::push;
use netlist_link::Netlist;
use std::alloc::Global;
use std::marker::Model;

/// The load of each net of a netlist and the Elmore sum of each sink of each net, at each corner. Contracts see them in
/// order, and how many sinks the nets before each net have.
#[derive(Drop)]
pub struct NetDelays<C: CornerSet> {
    loads: Grid<C, Farads>,
    elmores: Grid<C, u128>,
    // for each net how many sinks the nets before have, and then the number of all sinks
    starts: Vec<usize>,
}

impl<C: CornerSet> Model for NetDelays<C> {
    ghost use Rattle.net_delays.specs.NetTimes.{NetTimes, AreNetTimes};

    ghost Value = { NetTimes };

    ghost view = { λ delays. record { starts = delays.starts.items; loads = delays.loads.values; elmores = delays.elmores.values } };

    ghost invariant = { λ delays.
        AreNetTimes C.COUNT (record { starts = delays.starts.items; loads = delays.loads.values; elmores = delays.elmores.values }) };
}

impl<C: CornerSet> NetDelays<C> {
    /// Loads and Elmore sums of 0 for all nets and sinks of a netlist. More of them than a `usize` counts are out of memory.
    pub fn new(alloc: Global, netlist: &Netlist) -> Result<NetDelays<C>, OutOfMemory>
        ensures fits { IfOk result (Fits netlist.now) }
        ensures loads { IfOk result (λ delays. (net corner : ℕ) → load_at C.COUNT delays net corner ≡ 0) }
        ensures elmores { IfOk result (λ delays. (net sink corner : ℕ) → elmore_at C.COUNT delays net sink corner ≡ 0) }
    {
        let starts = starts_of(alloc, netlist)?;
        let nets = netlist.net_count();
        let sinks = starts[nets];
        Ok(NetDelays {
            loads: Grid::with_rows(alloc, nets, Farads(0))?,
            elmores: Grid::with_rows(alloc, sinks, 0)?,
            starts,
        })
    }

    /// There is a load for each net and an Elmore sum for each sink at each corner, and no more. It does nothing when it is called.
    pub fn whole(&self)
        ensures { AreNetTimes C.COUNT self.now }
    {
        let _ = &self.starts;
    }

    /// Sets the load of a net at a corner, in 10^-21 F, and leaves all others.
    #[tactic(auto, using(crate::proofs::Starts::load_row))]
    pub fn set_load(&mut self, net: usize, corner: C::Index, load: Farads)
        requires { HasNet self.old net }
        ensures held { load_at C.COUNT self.new net (C.number_of corner) ≡ load.0 }
        ensures others { (other : ℕ) (at : C.Index) → HasNet self.old other
            → LeavesLoads C.COUNT self.old self.new net (C.number_of corner) other (C.number_of at) }
        ensures elmores { self.new.elmores ≡ self.old.elmores }
        ensures starts { self.new.starts ≡ self.old.starts }
    {
        self.loads.set(net, corner, load);
    }

    /// Sets the Elmore sum of a sink of a net at a corner, in 10^-27 s, and leaves all others.
    pub fn set_elmore(&mut self, net: usize, sink: usize, corner: C::Index, value: u128)
        requires sink { HasSink self.old net sink }
        requires small { value < elmore_limit }
        ensures held { elmore_at C.COUNT self.new net sink (C.number_of corner) ≡ value }
        ensures others { (other of : ℕ) (at : C.Index) → HasSink self.old other of
            → LeavesElmores C.COUNT self.old self.new net sink (C.number_of corner) other of (C.number_of at) }
        ensures loads { self.new.loads ≡ self.old.loads }
        ensures starts { self.new.starts ≡ self.old.starts }
    {
        let row = self.row_of(net, sink);
        self.elmores.set(row, corner, value);
    }

    /// The load of a net at a corner, in 10^-21 F.
    #[tactic(auto, using(crate::proofs::Starts::load_row))]
    pub fn load(&self, net: usize, corner: C::Index) -> Farads
        requires { HasNet self.now net }
        ensures { result.0 ≡ load_at C.COUNT self.now net (C.number_of corner) }
    {
        self.loads.get(net, corner)
    }

    /// The Elmore sum of a sink of a net at a corner, in 10^-27 s.
    pub fn elmore(&self, net: usize, sink: usize, corner: C::Index) -> u128
        requires { HasSink self.now net sink }
        ensures value { result ≡ elmore_at C.COUNT self.now net sink (C.number_of corner) }
        ensures small { result < elmore_limit }
    {
        let row = self.row_of(net, sink);
        self.elmores.get(row, corner)
    }

    // The row of a sink among those of all sinks.
    #[tactic(auto, using(crate::proofs::Starts::sink_row))]
    fn row_of(&self, net: usize, sink: usize) -> usize
        requires { HasSink self.now net sink }
        ensures row { result ≡ start_in self.now.starts net + sink }
        ensures within { HasRow C.COUNT self.now.elmores result }
        ensures whole { AreNetTimes C.COUNT self.now }
    {
        // The sum is below the start of the next net.
        let _end = self.starts[net + 1];
        self.starts[net] + sink
    }
}

// For each net how many sinks the nets before have, and then the number of all sinks.
#[tactic(auto, using(crate::proofs::Starts::no_sums, crate::proofs::Starts::more_sums, crate::proofs::Starts::all_sums))]
fn starts_of(alloc: Global, netlist: &Netlist) -> Result<Vec<usize>, OutOfMemory>
    ensures { IfOk result (λ starts. AreStarts netlist.now starts.items) }
{
    let mut starts = Vec::new(alloc);
    let mut sinks: usize = 0;
    for net in 0..netlist.net_count() {
        push(&mut starts, sinks)?;
        let Some(sum) = sinks.checked_add(netlist.sink_count(net)) else {
            return Err(OutOfMemory);
        };
        sinks = sum;
    }
    push(&mut starts, sinks)?;
    Ok(starts)
}
