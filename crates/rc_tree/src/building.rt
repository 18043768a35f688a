//! The tree of a net, or why it has none.
ghost use Rattle.std.specs.Prelude.{◌≡◌, ◌+◌, ◌*◌, ◌<◌, ◌≤◌, IsTrue, ◌↔◌, length, IfErr, OnOk, OnErr};
ghost use Rattle.rc_tree.specs.Arenas.{most_elements, node_count};
ghost use Rattle.rc_tree.specs.Pins.{pin_nodes};
ghost use Rattle.rc_tree.specs.SectionNets.{IsTooLarge};
ghost use Rattle.rc_tree.specs.Builds.{IsFit, IsTreeEnd, IsTreeOf};

use crate::branches::branched;
use crate::ends::TreeEnd;
use crate::lone::lone;
use crate::pin_source::PinSource;
use crate::tree::RcTree;
use crate::workspace::Workspace;
use corner_set::CornerSet;
use edge_io::Steps;
use spef_nets::Net;
use std::alloc::Global;
use std::sync::ledger::Ledger;

/// The most resistors of a net, and the most written capacitances and pins together.
const MOST: usize = 524_288;

impl<C: CornerSet> RcTree<C> {
    /// Makes it the tree of a net, from its section and its pins, in the memory that it has where that suffices. After a refusal it
    /// has no node. It has at most one node more than the section has resistors. One workspace serves all nets, and what it held is no
    /// matter. It makes at most one step for each resistor, and at each corner one for each resistor and each capacitance to ground.
    ///
    /// Nodes are numbered as in IEEE 1481: those of the pins first, the driver's before all, and then those of the section by first
    /// place. A net is a tree where walks over its resistors reach every node from the driver's, and each resistor cuts some node off.
    pub fn rebuild<P: PinSource<C>, L: Ledger>(
        &mut self,
        alloc: Global,
        workspace: &mut Workspace,
        section: &Net<C>,
        pins: &P,
        steps: &mut Steps<L>,
    ) -> Result<(), TreeEnd>
        requires { P.fits pins.now section.now }
        ensures tree { OnOk result (IsTreeOf C.COUNT section.now (P.pins pins.now section.now) self.new) }
        ensures nodes { OnOk result (node_count self.new ≤ length section.now.joints + 1) }
        ensures refused { IfErr result (λ end. IsTreeEnd C.COUNT section.now (P.pins pins.now section.now) end) }
        ensures none { OnErr result (node_count self.new ≡ 0) }
        ensures steps { steps.new ≤ steps.old + length section.now.joints
            + C.COUNT * (length section.now.joints + length section.now.caps) }
    {
        self.clear();
        pins.number(alloc, section, &mut workspace.numbered)?;
        if is_too_large(section, pins) {
            return Err(TreeEnd::TooLarge);
        }
        let lists = &mut workspace.lists;
        if section.res_count() == 0 {
            lone(alloc, section, pins, lists, self, steps)?;
            return Ok(());
        }
        branched(
            alloc,
            section,
            pins,
            &workspace.numbered,
            lists,
            self,
            steps,
        )
    }
}

// Whether there are too many resistors, or too many written capacitances and pins.
fn is_too_large<C: CornerSet, P: PinSource<C>>(section: &Net<C>, pins: &P) -> bool
    ensures { IsTrue result ↔ IsTooLarge section.now (P.pins pins.now section.now) }
{
    let sinks = pins.sink_count(section);
    section.res_count() > MOST
        || section.written_caps() > MOST
        || sinks >= MOST
        || section.written_caps() + sinks >= MOST
}
