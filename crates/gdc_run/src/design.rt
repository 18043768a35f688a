//! The rows of a design, from its files.
ghost use Rattle.std.specs.Prelude.{◌≡◌, ◌+◌, length, IfOk, OnOk};
ghost use Rattle.edge_io.specs.Counts.{RoseBy};
ghost use Rattle.name_table.specs.WellSpelled.{IsWellSpelled};
ghost use Rattle.sdf_read_back.specs.ReadBack.{AreFit};
ghost use Rattle.spef_nets.specs.Drafts.{corners_of};
ghost use Rattle.verdict_phases.specs.Phases.{Follows};
ghost use Rattle.refusals.specs.Refused.{AtReadFault};
ghost use Rattle.refusals.specs.EarlyRefusals.{OnEarly};
ghost use Rattle.wire_phases.specs.SpefWork.{IsWithin};
ghost use Rattle.delay_core.specs.Annotation.{IsAnnotationFault};
ghost use Rattle.delay_core.specs.AnnotationWork.{FilesWork};
ghost use Rattle.delay_core.specs.DesignTiming.{AreInRange};
ghost use Rattle.gdc_run.specs.Calculation.{DesignGives};

use corner_set::CornerSet;
use delay_core::{Files, Settings, annotate};
use edge_io::{Shelf, Steps};
use refusals::{FileKey, Refusal};
use sdf_writer::Rows;
use std::alloc::Global;
use std::sync::ledger::Ledger;
use verdict_phases::PhaseEnd;

/// The rows of a design with its delays, by the names of its files and its settings.
pub fn design_rows<C: CornerSet, H: Shelf, L: Ledger>(
    alloc: Global,
    shelf: &mut H,
    files: &Files,
    settings: &Settings,
    steps: &mut Steps<L>,
) -> Result<Rows<C>, PhaseEnd<Refusal, FileKey>>
    requires libraries { length files.now.libraries ≡ C.COUNT }
    requires settings { AreInRange settings.now }
    ensures follows { Follows (DesignGives (corners_of C.COUNT C.number_of C.member_of) (H.held shelf.old) files.now settings.now) result }
    // each name in the rows is well spelled, and each time is of a size that is printed
    ensures fit { IfOk result (AreFit IsWellSpelled C.COUNT) }
    ensures fault { AtReadFault result (IsAnnotationFault (H.held shelf.old) C.COUNT files.now (H.faults shelf.old) (H.faults shelf.new)
        (H.opens shelf.old) (H.opens shelf.new)) }
    ensures opens { OnOk result (RoseBy (C.COUNT + 2) (H.opens shelf.old) (H.opens shelf.new)) }
    ensures steps { IsWithin (FilesWork (H.held shelf.old) (corners_of C.COUNT C.number_of C.member_of settings.now.pick)
        files.now settings.now) steps.old steps.new }
    ensures no_steps { OnEarly result (steps.new ≡ steps.old) }
{
    let annotated = annotate::<C, H, L>(alloc, shelf, files, settings, steps)?;
    Ok(annotated.into_rows())
}
