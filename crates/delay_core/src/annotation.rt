//! The delays of a design, from its files.
ghost use Rattle.std.specs.Prelude.{◌≡◌, ◌≤◌, ◌+◌, length, Ok, IfOk, OnOk};
ghost use Rattle.edge_io.specs.Counts.{RoseBy};
ghost use Rattle.net_parasitics.specs.Inputs.{AreNamedApart, HaveSmallPins};
ghost use Rattle.spef_nets.specs.Drafts.{corners_of};
ghost use Rattle.verdict_phases.specs.Phases.{Follows};
ghost use Rattle.design_phases.specs.DesignReading.{inputs_of};
ghost use Rattle.refusals.specs.Refused.{AtReadFault};
ghost use Rattle.refusals.specs.EarlyRefusals.{OnEarly};
ghost use Rattle.wire_phases.specs.SpefWork.{IsWithin};
ghost use Rattle.design_phases.specs.UsePhase.{UsesCells};
ghost use Rattle.delay_core.specs.AnnotatedDesigns.{PartsAgree, with_delays_of};
ghost use Rattle.delay_core.specs.Annotation.{AnnotatesFrom, Annotates, IsAnnotationFault, IsSpefFault};
ghost use Rattle.delay_core.specs.AnnotationWork.{InputsWork, FilesWork};
ghost use Rattle.delay_core.specs.DesignTiming.{AreInRange};
ghost use Rattle.delay_core.specs.TimingHalves.{slews_work, ReadsNetTimes, AnnotatesDesign, ReadsDelays, DesignWork};

use crate::annotated::Annotated;
use crate::design_timing::{Delays, nets_from_text, time_design};
use crate::settings::{Files, Settings};
use corner_set::CornerSet;
use design_phases::{Design, Inputs, link_inputs, read_design};
use edge_io::{Shelf, Steps, Text};
use net_delays::NetDelays;
use refusals::{FileKey, Refusal, read_input};
use std::alloc::Global;
use std::sync::ledger::Ledger;
use verdict_phases::PhaseEnd;

// A design with delays of it.
fn annotated_of<C: CornerSet>(design: Design<C>, delays: Delays<C>) -> Annotated<C>
    requires { PartsAgree C.COUNT (with_delays_of design.netlist design.cells delays) }
    ensures { result ≡ with_delays_of design.netlist design.cells delays }
{
    let (netlist, cells) = design.into_parts();
    let Delays { rows, nets, slews } = delays;
    Annotated {
        rows,
        netlist,
        cells,
        nets,
        slews,
    }
}

// The loads and the Elmore sums of a design's nets, from its SPEF file. Its bytes and what was read of them are let go of before the
// slews and the rows take memory.
#[tactic(auto, using(crate::specs::TimingHalves::at_file, crate::proofs::Following::nets_go, crate::proofs::Work::no_design_work, crate::proofs::Work::lent_work, crate::proofs::Work::lent_ahead))]
fn read_nets<C: CornerSet, H: Shelf, L: Ledger>(
    alloc: Global,
    shelf: &mut H,
    design: &Design<C>,
    spef: &Text,
    settings: &Settings,
    steps: &mut Steps<L>,
) -> Result<NetDelays<C>, PhaseEnd<Refusal, FileKey>>
    requires apart { AreNamedApart design.now.netlist }
    requires small_pins { HaveSmallPins design.now.cells }
    requires settings { AreInRange settings.now }
    ensures follows { Follows (ReadsNetTimes (H.held shelf.old) (corners_of C.COUNT C.number_of C.member_of settings.now.pick)
        design.now spef.now settings.now) result }
    ensures fault { AtReadFault result (IsSpefFault (H.held shelf.old) spef.now (H.faults shelf.old) (H.faults shelf.new)
        (H.opens shelf.old) (H.opens shelf.new)) }
    ensures later { H.faults shelf.old ≤ H.faults shelf.new }
    ensures opens { RoseBy 1 (H.opens shelf.old) (H.opens shelf.new) }
    ensures held { H.held shelf.new ≡ H.held shelf.old }
    ensures steps { IsWithin (DesignWork (H.held shelf.old) (corners_of C.COUNT C.number_of C.member_of settings.now.pick)
        design.now spef.now settings.now) steps.old steps.new }
    ensures ahead { OnOk result (IsWithin (λ work. DesignWork (H.held shelf.old) (corners_of C.COUNT C.number_of C.member_of
        settings.now.pick) design.now spef.now settings.now (work + slews_work C.COUNT design.now)) steps.old steps.new) }
    ensures no_steps { OnEarly result (steps.new ≡ steps.old) }
{
    let text = read_input(alloc, shelf, spef, FileKey::Spef)?;
    let nets = nets_from_text(alloc, design, text.bytes(), settings, steps)?;
    Ok(nets)
}

// The delays of a linked design, from its SPEF file: the loads and the Elmore sums of its nets are found, and then its slews and its rows.
#[tactic(auto, using(crate::proofs::Following::read_fit, crate::proofs::Work::with_rest))]
fn read_delays<C: CornerSet, H: Shelf, L: Ledger>(
    alloc: Global,
    shelf: &mut H,
    design: &Design<C>,
    spef: &Text,
    settings: &Settings,
    steps: &mut Steps<L>,
) -> Result<Delays<C>, PhaseEnd<Refusal, FileKey>>
    requires apart { AreNamedApart design.now.netlist }
    requires small_pins { HaveSmallPins design.now.cells }
    requires settings { AreInRange settings.now }
    ensures follows { Follows (ReadsDelays (H.held shelf.old) (corners_of C.COUNT C.number_of C.member_of settings.now.pick)
        design.now spef.now settings.now) result }
    ensures agree { IfOk result (λ delays. PartsAgree C.COUNT (with_delays_of design.now.netlist design.now.cells delays)) }
    ensures fault { AtReadFault result (IsSpefFault (H.held shelf.old) spef.now (H.faults shelf.old) (H.faults shelf.new)
        (H.opens shelf.old) (H.opens shelf.new)) }
    ensures later { H.faults shelf.old ≤ H.faults shelf.new }
    ensures opens { RoseBy 1 (H.opens shelf.old) (H.opens shelf.new) }
    ensures held { H.held shelf.new ≡ H.held shelf.old }
    ensures steps { IsWithin (DesignWork (H.held shelf.old) (corners_of C.COUNT C.number_of C.member_of settings.now.pick)
        design.now spef.now settings.now) steps.old steps.new }
    ensures no_steps { OnEarly result (steps.new ≡ steps.old) }
{
    let nets = read_nets::<C, H, L>(alloc, shelf, design, spef, settings, steps)?;
    let delays = time_design(alloc, design, nets, settings, steps)?;
    Ok(delays)
}

// Reads the SPEF file of a linked design, and gives the design its delays.
fn annotate_design<C: CornerSet, H: Shelf, L: Ledger>(
    alloc: Global,
    shelf: &mut H,
    design: Design<C>,
    spef: &Text,
    settings: &Settings,
    steps: &mut Steps<L>,
) -> Result<Annotated<C>, PhaseEnd<Refusal, FileKey>>
    requires apart { AreNamedApart design.netlist }
    requires small_pins { HaveSmallPins design.cells }
    requires settings { AreInRange settings.now }
    ensures follows { Follows (AnnotatesDesign (H.held shelf.old) (corners_of C.COUNT C.number_of C.member_of settings.now.pick)
        design spef.now settings.now) result }
    ensures fault { AtReadFault result (IsSpefFault (H.held shelf.old) spef.now (H.faults shelf.old) (H.faults shelf.new)
        (H.opens shelf.old) (H.opens shelf.new)) }
    ensures later { H.faults shelf.old ≤ H.faults shelf.new }
    ensures opens { OnOk result (RoseBy 1 (H.opens shelf.old) (H.opens shelf.new)) }
    ensures held { H.held shelf.new ≡ H.held shelf.old }
    ensures steps { IsWithin (DesignWork (H.held shelf.old) (corners_of C.COUNT C.number_of C.member_of settings.now.pick)
        design spef.now settings.now) steps.old steps.new }
    ensures no_steps { OnEarly result (steps.new ≡ steps.old) }
{
    let delays = read_delays::<C, H, L>(alloc, shelf, &design, spef, settings, steps)?;
    Ok(annotated_of(design, delays))
}

/// Links the inputs of a design, reads its SPEF file, and gives the design its delays. It opens the SPEF file alone, and only where the
/// design is linked.
///
/// It makes at most 16 steps at each corner for each resistor, each capacitance to ground and each pin of the nets with a driver and a
/// sink, and 160 for each pair of an arc of an instance and an edge that it has, whatever it answers; and none before all sections of the
/// file are read.
#[tactic(auto, using(crate::specs::Annotation::at_link, crate::proofs::LinkedInputs::have_small_pins, crate::proofs::LinkedInputs::are_named_apart, crate::proofs::Work::no_inputs_work))]
pub fn annotate_from<C: CornerSet, H: Shelf, L: Ledger>(
    alloc: Global,
    shelf: &mut H,
    inputs: &Inputs<'_>,
    files: &Files,
    settings: &Settings,
    steps: &mut Steps<L>,
) -> Result<Annotated<C>, PhaseEnd<Refusal, FileKey>>
    requires uses { UsesCells inputs.now.modules settings.now.top (Ok inputs.now.used) }
    requires libraries { length inputs.now.libraries ≡ C.COUNT }
    requires settings { AreInRange settings.now }
    ensures follows { Follows (AnnotatesFrom (H.held shelf.old) (corners_of C.COUNT C.number_of C.member_of settings.now.pick)
        (inputs_of inputs.now) files.now.spef settings.now) result }
    ensures fault { AtReadFault result (IsSpefFault (H.held shelf.old) files.now.spef (H.faults shelf.old) (H.faults shelf.new)
        (H.opens shelf.old) (H.opens shelf.new)) }
    ensures later { H.faults shelf.old ≤ H.faults shelf.new }
    ensures opens { OnOk result (RoseBy 1 (H.opens shelf.old) (H.opens shelf.new)) }
    ensures held { H.held shelf.new ≡ H.held shelf.old }
    ensures steps { IsWithin (InputsWork (H.held shelf.old) (corners_of C.COUNT C.number_of C.member_of settings.now.pick)
        (inputs_of inputs.now) files.now.spef settings.now) steps.old steps.new }
    ensures no_steps { OnEarly result (steps.new ≡ steps.old) }
{
    let design = link_inputs::<C>(alloc, inputs, &settings.top)?;
    let annotated = annotate_design::<C, H, L>(alloc, shelf, design, &files.spef, settings, steps)?;
    Ok(annotated)
}

/// Reads a netlist, the libraries of all corners and a SPEF file, in this order, and gives the design its delays.
///
/// It makes no more steps than [`annotate_from`] does of the inputs.
#[tactic(auto, using(crate::proofs::LinkedInputs::read_small_pins, crate::proofs::LinkedInputs::read_apart, crate::proofs::Work::no_files_work))]
pub fn annotate<C: CornerSet, H: Shelf, L: Ledger>(
    alloc: Global,
    shelf: &mut H,
    files: &Files,
    settings: &Settings,
    steps: &mut Steps<L>,
) -> Result<Annotated<C>, PhaseEnd<Refusal, FileKey>>
    requires libraries { length files.now.libraries ≡ C.COUNT }
    requires settings { AreInRange settings.now }
    ensures follows { Follows (Annotates (H.held shelf.old) (corners_of C.COUNT C.number_of C.member_of settings.now.pick)
        files.now settings.now) result }
    ensures fault { AtReadFault result (IsAnnotationFault (H.held shelf.old) C.COUNT files.now (H.faults shelf.old) (H.faults shelf.new)
        (H.opens shelf.old) (H.opens shelf.new)) }
    ensures later { H.faults shelf.old ≤ H.faults shelf.new }
    ensures opens { OnOk result (RoseBy (C.COUNT + 2) (H.opens shelf.old) (H.opens shelf.new)) }
    ensures held { H.held shelf.new ≡ H.held shelf.old }
    ensures steps { IsWithin (FilesWork (H.held shelf.old) (corners_of C.COUNT C.number_of C.member_of settings.now.pick)
        files.now settings.now) steps.old steps.new }
    ensures no_steps { OnEarly result (steps.new ≡ steps.old) }
{
    let design = read_design::<C, H>(
        alloc,
        shelf,
        &files.netlist,
        &settings.top,
        &files.libraries,
    )?;
    let annotated = annotate_design::<C, H, L>(alloc, shelf, design, &files.spef, settings, steps)?;
    Ok(annotated)
}
