//! The loads of all nets of a netlist, and the Elmore sums of all their sinks.
ghost use Rattle.std.specs.Prelude.{◌≡◌, ◌≤◌, ◌<◌, ◌↔◌, ◌⊎◌, ℕ, length, slice_get, Contains, Some, IsTrue, IfOk, IfErr, IfSome, IfNone, OnOk};
ghost use Rattle.delay_units.specs.Bounds.{most_farads};
ghost use Rattle.netlist_link.specs.FlatNetlist.{net_at};
ghost use Rattle.spef_nets.specs.NetElements.{net_names};
ghost use Rattle.net_delays.specs.NetTimes.{Fits};
ghost use Rattle.net_parasitics.specs.Inputs.{AreNamedApart, HaveSmallPins, inputs_of};
ghost use Rattle.net_parasitics.specs.NetSections.{IsSectionOf};
ghost use Rattle.net_parasitics.specs.NetTrees.{IsWired, IsUnwired, IsMissing, AreZero, HasTimes};
ghost use Rattle.net_parasitics.specs.NetTrees.{NoneMissing, AreNetDelays, IsParasiticsEnd};
ghost use Rattle.net_parasitics.specs.NetSteps.{KeepsOtherNets, IsNetEnd, IsFirstNetEnd, IsFirstMissing, TakesWork, AreFirstTimes};
ghost use Rattle.net_parasitics.specs.WorkCounts.{IsWithin, is_early};
ghost use Rattle.corner_set.specs.declared.choices.Missing.TheVariants.{Refuse};

use crate::ends::{ParasiticsEnd, end_of_net};
use crate::inputs::NetInputs;
use crate::net_times::put_times;
use crate::net_trees::TreeWork;
use corner_set::{CornerSet, Missing};
use delay_units::Farads;
use edge_io::Steps;
use net_delays::NetDelays;
use netlist_link::{End, LinkedNetlist};
use rc_tree::TreeEnd;
use spef_nets::{Net, Sections};
use std::alloc::Global;
use std::sync::ledger::Ledger;

/// The most pins of a net that has no section.
const MOST: usize = 524_288;

impl<'a, 'r, 'f, C: CornerSet> NetInputs<'a, 'r, 'f, C> {
    // What drives a net, if it has a sink.
    fn wired_driver(&self, net: usize) -> Option<End>
        requires { net < length self.now.netlist.nets }
        ensures wired { IfSome result (IsWired self.now.netlist net) }
        ensures unwired { IfNone result (IsUnwired self.now.netlist net) }
    {
        if self.linked.netlist.sink_count(net) == 0 {
            return None;
        }
        self.linked.netlist.driver(net)
    }

    // The place of the section of a net, if it has one. It is looked for first where it is likely to stand: behind the one that was
    // found last.
    fn section_of(&self, net: usize, near: &mut usize) -> Option<usize>
        requires { net < length self.now.netlist.nets }
        ensures found { IfSome result (λ place. slice_get (net_names self.now.sections) place ≡ Some (net_at self.now.netlist net).text) }
        ensures within { IfSome result (λ place. place < length self.now.sections) }
        ensures absent { IfNone result (¬ Contains (net_names self.now.sections) (net_at self.now.netlist net).text) }
    {
        let place = self
            .sections
            .find_near(self.linked.netlist.net_text(net), *near)?;
        *near = place.saturating_add(1);
        Some(place)
    }

    // Whether a net has a driver and a sink but no section.
    fn is_missing(&self, net: usize, near: &mut usize) -> bool
        requires { net < length self.now.netlist.nets }
        ensures { IsTrue result ↔ IsMissing self.now net }
    {
        match self.wired_driver(net) {
            Some(_) => self.section_of(net, near).is_none(),
            None => false,
        }
    }

    // Refuses the first net that has a driver and a sink but no section.
    fn refuse_missing(&self) -> Result<(), ParasiticsEnd>
        ensures none { OnOk result ((net : ℕ) → ¬ IsMissing self.now net) }
        ensures refused { IfErr result (IsFirstMissing self.now) }
    {
        let mut near = 0;
        for net in 0..self.linked.netlist.net_count() {
            if self.is_missing(net, &mut near) {
                return Err(ParasiticsEnd::MissingNet { net });
            }
        }
        Ok(())
    }

    // The same, where it is asked for.
    fn check_missing(&self, missing: Missing) -> Result<(), ParasiticsEnd>
        ensures none { OnOk result (NoneMissing self.now missing) }
        ensures refused { IfErr result (λ end. (missing ≡ Refuse) × IsFirstMissing self.now end) }
    {
        match missing {
            Missing::Refuse => self.refuse_missing(),
            Missing::Zero => Ok(()),
        }
    }

    // Puts the times of a net that has a section.
    fn put_written<'p, L: Ledger>(
        &'p self,
        alloc: Global,
        net: usize,
        driver: End,
        section: &Net<C>,
        work: &mut TreeWork<'p, C>,
        delays: &mut NetDelays<C>,
        steps: &mut Steps<L>,
    ) -> Result<(), ParasiticsEnd>
        requires wired { IsWired self.now.netlist net driver }
        requires written { IsSectionOf self.now.sections (net_at self.now.netlist net).text section.now }
        requires fits { Fits self.now.netlist delays.old }
        ensures times { OnOk result (HasTimes self.now delays.new net) }
        ensures others { OnOk result (KeepsOtherNets C.COUNT delays.old delays.new net) }
        ensures refused { IfErr result (IsNetEnd self.now net) }
        ensures work { TakesWork self.now net steps.old steps.new }
    {
        self.sound();
        if let Err(end) = work.draw(alloc, self, net, driver, section, steps) {
            return Err(end_of_net(net, end));
        }
        put_times(&work.tree, &work.sums, net, delays, steps);
        Ok(())
    }

    // Puts the times of a net that has no section: the load of its sinks.
    fn put_unwritten(
        &self,
        net: usize,
        driver: End,
        delays: &mut NetDelays<C>,
    ) -> Result<(), ParasiticsEnd>
        requires wired { IsWired self.now.netlist net driver }
        requires absent { ¬ Contains (net_names self.now.sections) (net_at self.now.netlist net).text }
        requires fits { Fits self.now.netlist delays.old }
        requires zero { AreZero self.now delays.old net }
        ensures times { OnOk result (HasTimes self.now delays.new net) }
        ensures others { OnOk result (KeepsOtherNets C.COUNT delays.old delays.new net) }
        ensures refused { IfErr result (IsNetEnd self.now net) }
    {
        self.sound();
        if self.linked.netlist.sink_count(net) >= MOST {
            return Err(ParasiticsEnd::Tree {
                net,
                end: TreeEnd::TooLarge,
            });
        }
        self.put_own_load(net, delays);
        Ok(())
    }

    // Puts the times of a net that has a driver and a sink.
    fn put_wired<'p, L: Ledger>(
        &'p self,
        alloc: Global,
        net: usize,
        driver: End,
        work: &mut TreeWork<'p, C>,
        delays: &mut NetDelays<C>,
        steps: &mut Steps<L>,
    ) -> Result<(), ParasiticsEnd>
        requires wired { IsWired self.now.netlist net driver }
        requires fits { Fits self.now.netlist delays.old }
        requires zero { AreZero self.now delays.old net }
        ensures times { OnOk result (HasTimes self.now delays.new net) }
        ensures others { OnOk result (KeepsOtherNets C.COUNT delays.old delays.new net) }
        ensures refused { IfErr result (IsNetEnd self.now net) }
        ensures work { TakesWork self.now net steps.old steps.new }
    {
        match self.section_of(net, &mut work.near) {
            Some(place) => {
                let section = self.sections.get(place);
                self.put_written(alloc, net, driver, &section, work, delays, steps)
            }
            None => self.put_unwritten(net, driver, delays),
        }
    }

    // Puts the times of a net, which are 0 before, or refuses it.
    fn put_net<'p, L: Ledger>(
        &'p self,
        alloc: Global,
        net: usize,
        work: &mut TreeWork<'p, C>,
        delays: &mut NetDelays<C>,
        steps: &mut Steps<L>,
    ) -> Result<(), ParasiticsEnd>
        requires net { net < length self.now.netlist.nets }
        requires fits { Fits self.now.netlist delays.old }
        requires zero { AreZero self.now delays.old net }
        ensures times { OnOk result (HasTimes self.now delays.new net) }
        ensures others { OnOk result (KeepsOtherNets C.COUNT delays.old delays.new net) }
        ensures refused { IfErr result (IsNetEnd self.now net) }
        ensures work { TakesWork self.now net steps.old steps.new }
    {
        match self.wired_driver(net) {
            Some(driver) => self.put_wired(alloc, net, driver, work, delays, steps),
            None => Ok(()),
        }
    }

    // Puts the times of all nets, which are 0 before, or refuses the first that has no tree.
    fn put_nets<L: Ledger>(
        &self,
        alloc: Global,
        delays: &mut NetDelays<C>,
        steps: &mut Steps<L>,
    ) -> Result<(), ParasiticsEnd>
        requires { AreFirstTimes self.now 0 delays.old }
        ensures times { OnOk result (AreFirstTimes self.now (length self.now.netlist.nets) delays.new) }
        ensures refused { IfErr result (IsFirstNetEnd self.now) }
        ensures work { IsWithin self.now (length self.now.netlist.nets) steps.old steps.new }
    {
        self.sound();
        let mut work = TreeWork::new(alloc)?;
        for net in 0..self.linked.netlist.net_count() {
            self.put_net(alloc, net, &mut work, delays, steps)?;
        }
        Ok(())
    }
}

/// The load of each net of a netlist and the Elmore sum of each of its sinks, at each corner.
///
/// A net with a driver and a sink has the elements of its section, and each sink has its load: an
/// input pin the capacitance of its cell at the corner, an output port `port_load`, which is at most a nanofarad. The load of the net is
/// the sum of its capacitances, and a sink's Elmore sum is that of the tree of the net, in 10^-27 s and not rounded. For any other net
/// both are 0. Sections of nets that the netlist lacks are read over. Where `missing` says so, a net without a section has the elements of
/// an empty one; else the first such net is refused, before any tree is built. Then the first net that has no tree is refused. One tree,
/// one workspace and one scratch serve all nets.
///
/// It makes at most 16 steps at each corner for each resistor, each capacitance to ground and each pin of the nets with a driver and a
/// sink.
pub fn net_delays<C: CornerSet, L: Ledger>(
    alloc: Global,
    linked: &LinkedNetlist<C>,
    sections: &Sections<'_, '_, C>,
    port_load: Farads,
    missing: Missing,
    steps: &mut Steps<L>,
) -> Result<NetDelays<C>, ParasiticsEnd>
    // as the netlist of a design has it
    requires apart { AreNamedApart linked.now.netlist }
    // as the models of cells have it that a library gives
    requires small_pins { HaveSmallPins linked.now.cells }
    requires small_ports { port_load.0 ≤ most_farads }
    ensures delays { IfOk result (AreNetDelays (inputs_of C.COUNT linked.now.netlist linked.now.cells sections.now port_load) missing) }
    ensures refused { IfErr result (IsParasiticsEnd (inputs_of C.COUNT linked.now.netlist linked.now.cells sections.now port_load) missing) }
    ensures work { IsWithin (inputs_of C.COUNT linked.now.netlist linked.now.cells sections.now port_load) (length linked.now.netlist.nets)
        steps.old steps.new }
    ensures no_steps { IfErr result (λ end. IsTrue (is_early end) → steps.new ≡ steps.old) }
    // no tree is built where a net is missing, whatever is answered
    ensures none_missing { (steps.new ≡ steps.old)
        ⊎ NoneMissing (inputs_of C.COUNT linked.now.netlist linked.now.cells sections.now port_load) missing }
{
    let inputs = NetInputs {
        linked,
        sections,
        port_load,
    };
    inputs.check_missing(missing)?;
    let mut delays = NetDelays::new(alloc, &linked.netlist)?;
    inputs.put_nets(alloc, &mut delays, steps)?;
    delays.whole();
    Ok(delays)
}
