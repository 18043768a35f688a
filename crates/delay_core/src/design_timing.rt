//! The delays of a linked design, from a SPEF file.
ghost use Rattle.std.specs.Prelude.{◌≡◌, ◌^◌, ◌<◌, ◌≤◌, ◌+◌, ◌⊎◌, length, IfOk, OnOk, IsTrue};
ghost use Rattle.net_delays.specs.NetTimes.{Fits};
ghost use Rattle.net_parasitics.specs.Inputs.{AreNamedApart, HaveSmallPins};
ghost use Rattle.net_parasitics.specs.NetTrees.{NoneMissing};
ghost use Rattle.net_parasitics.specs.WorkCounts.{IsWithin as IsNetsWithin};
ghost use Rattle.spef_nets.specs.Drafts.{corners_of};
ghost use Rattle.spef_text.specs.Heads.{IsHeadOf};
ghost use Rattle.verdict_phases.specs.Phases.{FollowsNoFile};
ghost use Rattle.refusals.specs.Refused.{OnRefusal};
ghost use Rattle.refusals.specs.EarlyRefusals.{is_early};
ghost use Rattle.wire_phases.specs.SpefWork.{IsWithin};
ghost use Rattle.delay_core.specs.AnnotatedDesigns.{AreSound};
ghost use Rattle.delay_core.specs.AnnotationWork.{BytesWork};
ghost use Rattle.delay_core.specs.DelayPhase.{FindsDelays};
ghost use Rattle.delay_core.specs.DesignTiming.{net_inputs, AreInRange};
ghost use Rattle.delay_core.specs.TimingHalves.{slews_work, FindsNets, FindsFileNets, FileWork, TimesNets};

use crate::delay_phase::find_delays;
use crate::settings::Settings;
use crate::slew_phase::find_slews;
use annotation_rows::annotation_rows;
use corner_set::CornerSet;
use design_phases::Design;
use edge_io::Steps;
use net_delays::NetDelays;
use netlist_link::LinkedNetlist;
use refusals::Refusal;
use sdf_writer::Rows;
use slew_order::{LoadedNetlist, Slews};
use spef_nets::Sections;
use spef_text::{Head, SpefFile};
use std::alloc::Global;
use std::marker::Model;
use std::sync::ledger::Ledger;
use verdict_phases::NoFileEnd;
use wire_phases::{head_of, nets_of, parse_spef};

/// The delays of a design: its rows, the loads and Elmore sums of its nets, and the slews of its pins.
#[derive(Drop)]
pub struct Delays<C: CornerSet> {
    pub rows: Rows<C>,
    pub nets: NetDelays<C>,
    pub slews: Slews<C>,
}

impl<C: CornerSet> Model for Delays<C> {
    ghost use Rattle.delay_core.specs.AnnotatedDesigns.{DesignDelays};

    ghost Value = { DesignDelays };

    ghost view = { λ d. record { rows = d.rows; nets = d.nets; slews = d.slews } };
}

// The loads and the Elmore sums of a design's nets, from the sections of a SPEF file.
fn find_design_delays<C: CornerSet, L: Ledger>(
    alloc: Global,
    design: &Design<C>,
    sections: &Sections<'_, '_, C>,
    settings: &Settings,
    steps: &mut Steps<L>,
) -> Result<NetDelays<C>, NoFileEnd<Refusal>>
    requires apart { AreNamedApart design.now.netlist }
    requires small_pins { HaveSmallPins design.now.cells }
    requires settings { AreInRange settings.now }
    ensures follows { FollowsNoFile (FindsDelays (net_inputs C.COUNT design.now sections.now settings.now) settings.now.missing) result }
    ensures work { IsNetsWithin (net_inputs C.COUNT design.now sections.now settings.now) (length design.now.netlist.nets)
        steps.old steps.new }
    ensures no_steps { OnRefusal result (λ refusal. IsTrue (is_early refusal) → steps.new ≡ steps.old) }
    ensures none_missing { (steps.new ≡ steps.old)
        ⊎ NoneMissing (net_inputs C.COUNT design.now sections.now settings.now) settings.now.missing }
{
    find_delays(alloc, design.linked(), sections, settings, steps)
}

// The loads and the Elmore sums of a design's nets, from a SPEF file whose grammar and head are read: all its sections are read, and then
// the nets get theirs.
#[tactic(auto, using(crate::proofs::Work::no_sections_work))]
fn nets_from_sections<C: CornerSet, L: Ledger>(
    alloc: Global,
    design: &Design<C>,
    file: &SpefFile,
    head: &Head,
    settings: &Settings,
    steps: &mut Steps<L>,
) -> Result<NetDelays<C>, NoFileEnd<Refusal>>
    requires head { IsHeadOf file.now head.now }
    requires apart { AreNamedApart design.now.netlist }
    requires small_pins { HaveSmallPins design.now.cells }
    requires settings { AreInRange settings.now }
    ensures follows { FollowsNoFile (FindsFileNets (corners_of C.COUNT C.number_of C.member_of settings.now.pick) design.now file.now
        head.now settings.now) result }
    ensures steps { IsWithin (FileWork (corners_of C.COUNT C.number_of C.member_of settings.now.pick) design.now file.now head.now
        settings.now) steps.old steps.new }
    ensures ahead { OnOk result (IsWithin (λ work. FileWork (corners_of C.COUNT C.number_of C.member_of settings.now.pick) design.now
        file.now head.now settings.now (work + slews_work C.COUNT design.now)) steps.old steps.new) }
    ensures no_steps { OnRefusal result (λ refusal. IsTrue (is_early refusal) → steps.new ≡ steps.old) }
{
    let sections = nets_of::<C>(alloc, file, head, settings.pick)?;
    find_design_delays(alloc, design, &sections, settings, steps)
}

/// The loads and the Elmore sums of a design's nets, from the bytes of a SPEF file: its grammar and its head are read, then all its
/// sections, and then the nets get theirs. Nothing of the file is kept. Its work leaves the slews and the rows their steps (`ahead`).
#[tactic(auto, using(crate::proofs::Work::no_bytes_work))]
pub fn nets_from_text<C: CornerSet, L: Ledger>(
    alloc: Global,
    design: &Design<C>,
    bytes: &[u8],
    settings: &Settings,
    steps: &mut Steps<L>,
) -> Result<NetDelays<C>, NoFileEnd<Refusal>>
    requires bytes { length bytes.now < 2 ^ 30 }
    requires apart { AreNamedApart design.now.netlist }
    requires small_pins { HaveSmallPins design.now.cells }
    requires settings { AreInRange settings.now }
    ensures follows { FollowsNoFile (FindsNets (corners_of C.COUNT C.number_of C.member_of settings.now.pick) design.now bytes.now
        settings.now) result }
    ensures steps { IsWithin (BytesWork (corners_of C.COUNT C.number_of C.member_of settings.now.pick) design.now bytes.now settings.now)
        steps.old steps.new }
    ensures ahead { OnOk result (IsWithin (λ work. BytesWork (corners_of C.COUNT C.number_of C.member_of settings.now.pick) design.now
        bytes.now settings.now (work + slews_work C.COUNT design.now)) steps.old steps.new) }
    ensures no_steps { OnRefusal result (λ refusal. IsTrue (is_early refusal) → steps.new ≡ steps.old) }
{
    let file = parse_spef(alloc, bytes)?;
    let head = head_of(alloc, &file)?;
    nets_from_sections(alloc, design, &file, &head, settings, steps)
}

// The delays of a netlist that is linked with its cells, from the loads and the Elmore sums of its nets: the slews are found, and then the
// rows are made.
#[tactic(auto, using(crate::specs::TimingHalves::stops_at_slews, crate::specs::TimingHalves::gets_rows, crate::proofs::Agreeing::tables_fit))]
fn time_netlist<C: CornerSet, L: Ledger>(
    alloc: Global,
    linked: &LinkedNetlist<C>,
    nets: NetDelays<C>,
    settings: &Settings,
    steps: &mut Steps<L>,
) -> Result<Delays<C>, NoFileEnd<Refusal>>
    requires fits { Fits linked.now.netlist nets }
    requires settings { AreInRange settings.now }
    ensures follows { FollowsNoFile (TimesNets C.COUNT (record { netlist = linked.now.netlist; cells = linked.now.cells }) nets
        settings.now) result }
    ensures steps { steps.new ≤ steps.old + slews_work C.COUNT (record { netlist = linked.now.netlist; cells = linked.now.cells }) }
    ensures sound { IfOk result (AreSound C.COUNT linked.now.cells) }
{
    let loaded = LoadedNetlist {
        linked,
        nets: &nets,
    };
    let slews = find_slews(alloc, &loaded, settings, steps)?;
    let rows = annotation_rows(alloc, &settings.top, &loaded, &slews, steps)?;
    Ok(Delays { rows, nets, slews })
}

/// The delays of a design, from the loads and the Elmore sums of its nets. No refusal of it is an early one.
pub fn time_design<C: CornerSet, L: Ledger>(
    alloc: Global,
    design: &Design<C>,
    nets: NetDelays<C>,
    settings: &Settings,
    steps: &mut Steps<L>,
) -> Result<Delays<C>, NoFileEnd<Refusal>>
    requires fits { Fits design.now.netlist nets }
    requires settings { AreInRange settings.now }
    ensures follows { FollowsNoFile (TimesNets C.COUNT design.now nets settings.now) result }
    ensures steps { steps.new ≤ steps.old + slews_work C.COUNT design.now }
    ensures sound { IfOk result (AreSound C.COUNT design.now.cells) }
{
    time_netlist(alloc, design.linked(), nets, settings, steps)
}
