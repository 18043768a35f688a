//! The trees of nets, built one after another in the same lists.
ghost use Rattle.std.specs.Prelude.{◌≡◌, ◌+◌, ◌*◌, ◌<◌, ◌≤◌, ℕ, length, IfOk, IfErr, OnOk};
ghost use Rattle.netlist_link.specs.FlatNetlist.{net_at};
ghost use Rattle.rc_tree.specs.Arenas.{node_count};
ghost use Rattle.rc_tree.specs.Builds.{IsTreeEnd, IsTreeOf};
ghost use Rattle.net_parasitics.specs.NetPins.{net_pins};
ghost use Rattle.net_parasitics.specs.NetTrees.{IsWired};
ghost use Rattle.net_parasitics.specs.NetSteps.{AreSums};

use crate::inputs::NetInputs;
use corner_set::{CornerSet, Grid};
use delay_units::Farads;
use edge_io::{OutOfMemory, Steps};
use elmore_pass::elmore_into;
use netlist_link::End;
use rc_tree::{PinLoads, PinName, RcTree, Scratch, TreeEnd, Workspace};
use spef_nets::Net;
use std::alloc::Global;
use std::marker::Model;
use std::sync::ledger::Ledger;

/// It stands for the driver before the first net.
const NO_PIN: PinName<'static> = PinName {
    head: &[],
    tail: None,
    head_sdf: &[],
};

/// The tree of a net with its Elmore sums, and what serves net after net. Contracts see the tree and the sums.
#[derive(Drop)]
pub struct TreeWork<'p, C: CornerSet> {
    pub tree: RcTree<C>,
    pub sums: Scratch<C>,
    // where the section of the next net is likely to stand
    pub near: usize,
    workspace: Workspace,
    pins: PinLoads<'p, C>,
    // the loads of one sink
    row: Grid<C, Farads>,
}

impl<'p, C: CornerSet> Model for TreeWork<'p, C> {
    ghost use Rattle.std.specs.Prelude.{◌≡◌, length};
    ghost use Rattle.net_parasitics.specs.NetSteps.{DrawnTree};

    ghost Value = { DrawnTree };

    ghost view = { λ w. record { tree = w.tree; sums = w.sums } };

    ghost invariant = { λ w. length w.row.values ≡ C.COUNT };
}

impl<'p, C: CornerSet> TreeWork<'p, C> {
    /// No tree yet.
    pub fn new(alloc: Global) -> Result<TreeWork<'p, C>, OutOfMemory> {
        Ok(TreeWork {
            tree: RcTree::new(alloc)?,
            sums: Scratch::reserve(alloc, 0)?,
            near: 0,
            workspace: Workspace::new(alloc),
            pins: PinLoads::with_room(alloc, NO_PIN, 0)?,
            row: Grid::with_rows(alloc, 1, Farads(0))?,
        })
    }

    /// Draws the tree of a net from its section, and takes its Elmore sums.
    pub fn draw<L: Ledger>(
        &mut self,
        alloc: Global,
        inputs: &'p NetInputs<'_, '_, '_, C>,
        net: usize,
        driver: End,
        section: &Net<C>,
        steps: &mut Steps<L>,
    ) -> Result<(), TreeEnd>
        requires { IsWired inputs.now.netlist net driver }
        ensures tree { OnOk result (IsTreeOf C.COUNT section.now (net_pins inputs.now net driver) self.new.tree) }
        ensures sums { OnOk result ((corner : ℕ) → corner < C.COUNT → AreSums C.COUNT self.new.tree self.new.sums corner) }
        ensures room { OnOk result (node_count self.new.tree * C.COUNT ≤ length self.new.sums) }
        ensures refused { IfErr result (IsTreeEnd C.COUNT section.now (net_pins inputs.now net driver)) }
        ensures steps { steps.new ≤ steps.old + length section.now.joints + C.COUNT * (length section.now.joints + length section.now.caps)
            + 12 * C.COUNT * (length section.now.joints + 1) }
    {
        inputs.put_pins(net, driver, &mut self.row, &mut self.pins)?;
        self.tree
            .rebuild(alloc, &mut self.workspace, section, &self.pins, steps)?;
        self.sums.make_room(alloc, self.tree.len())?;
        elmore_into(&self.tree, &mut self.sums, steps);
        Ok(())
    }
}
