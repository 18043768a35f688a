//! The load of a net and the Elmore sums of its sinks, put where those of all nets are kept.
ghost use Rattle.std.specs.Prelude.{◌≡◌, ◌+◌, ◌*◌, ◌<◌, ◌≤◌, ℕ, length};
ghost use Rattle.netlist_link.specs.FlatNetlist.{net_at};
ghost use Rattle.rc_tree.specs.Arenas.{node_count, most_elements};
ghost use Rattle.elmore_pass.specs.Delays.{HasDelay};
ghost use Rattle.net_delays.specs.NetTimes.{HasNet, HasSink};
ghost use Rattle.net_parasitics.specs.NetSteps.{AreSums, HasTreeTimes, KeepsOtherCorners, KeepsOtherNets, HasOwnLoad};

use crate::inputs::NetInputs;
use corner_set::{CornerSet, corner_at};
use edge_io::Steps;
use net_delays::NetDelays;
use rc_tree::{RcTree, Scratch};
use std::sync::ledger::Ledger;

// Puts the load of a tree and the Elmore sums of its sinks at a corner.
fn put_times_at<C: CornerSet, L: Ledger>(
    tree: &RcTree<C>,
    sums: &Scratch<C>,
    net: usize,
    corner: C::Index,
    delays: &mut NetDelays<C>,
    steps: &mut Steps<L>,
)
    requires some { 0 < node_count tree.now }
    requires room { node_count tree.now * C.COUNT ≤ length sums.now }
    requires sums { AreSums C.COUNT tree.now sums.now (C.number_of corner) }
    requires net { HasNet delays.old net }
    requires sinks { (sink : ℕ) → sink < length tree.now.sinks → HasSink delays.old net sink }
    ensures times { HasTreeTimes C.COUNT tree.now delays.new net (C.number_of corner) }
    ensures others { KeepsOtherCorners C.COUNT delays.old delays.new net (C.number_of corner) }
    ensures steps { steps.new ≤ steps.old + length tree.now.sinks }
{
    delays.set_load(net, corner, tree.load(corner));
    for sink in 0..tree.sink_count() {
        let sum = sums.value(tree.sink(sink), corner, steps);
        delays.set_elmore(net, sink, corner, sum);
    }
}

/// Puts the load of a tree and the Elmore sums of its sinks at each corner.
pub fn put_times<C: CornerSet, L: Ledger>(
    tree: &RcTree<C>,
    sums: &Scratch<C>,
    net: usize,
    delays: &mut NetDelays<C>,
    steps: &mut Steps<L>,
)
    requires some { 0 < node_count tree.now }
    requires room { node_count tree.now * C.COUNT ≤ length sums.now }
    requires sums { (corner : ℕ) → corner < C.COUNT → AreSums C.COUNT tree.now sums.now corner }
    requires net { HasNet delays.old net }
    requires sinks { (sink : ℕ) → sink < length tree.now.sinks → HasSink delays.old net sink }
    ensures times { (corner : ℕ) → corner < C.COUNT → HasTreeTimes C.COUNT tree.now delays.new net corner }
    ensures others { KeepsOtherNets C.COUNT delays.old delays.new net }
    ensures steps { steps.new ≤ steps.old + C.COUNT * length tree.now.sinks }
{
    for number in 0..C::COUNT {
        let corner = corner_at::<C>(number);
        put_times_at(tree, sums, net, corner, delays, steps);
    }
}

impl<'a, 'r, 'f, C: CornerSet> NetInputs<'a, 'r, 'f, C> {
    /// Puts the load of a net that has no section at each corner. Its Elmore sums stay as they are.
    pub fn put_own_load(&self, net: usize, delays: &mut NetDelays<C>)
        requires net { net < length self.now.netlist.nets }
        requires few { length (net_at self.now.netlist net).sinks ≤ most_elements }
        requires held { HasNet delays.old net }
        ensures load { (corner : ℕ) → corner < C.COUNT → HasOwnLoad self.now C.COUNT delays.new net corner }
        ensures elmores { delays.new.elmores ≡ delays.old.elmores }
        ensures others { KeepsOtherNets C.COUNT delays.old delays.new net }
    {
        for number in 0..C::COUNT {
            let corner = corner_at::<C>(number);
            delays.set_load(net, corner, self.load_sum(net, corner));
        }
    }
}
