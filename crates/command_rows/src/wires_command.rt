//! The command `wires`: the delays of the wires of a SPEF file.
ghost use Rattle.std.specs.Prelude.{◌≡◌, ◌^◌, ◌<◌, ◌⊎◌, length};
ghost use Rattle.edge_io.specs.Counts.{Rose, RoseBy};
ghost use Rattle.edge_io.specs.Holding.{TellsMissing};
ghost use Rattle.verdict_phases.specs.Phases.{Follows};
ghost use Rattle.refusals.specs.Refused.{AtReadFault, WithoutFile};
ghost use Rattle.refusals.specs.declared.refusal.FileKey.TheVariants.{Spef};
ghost use Rattle.command_rows.specs.CommandRows.{WiresGives};
ghost use Rattle.wire_phases.specs.SpefPhases.{sole_corner};
ghost use Rattle.refusals.specs.EarlyRefusals.{OnEarly};
ghost use Rattle.wire_phases.specs.SpefWork.{TextWork, IsWithin};
ghost use Rattle.wire_phases.specs.WireRows.{TextGives};
ghost use Rattle.command_rows.specs.RowsWork.{WiresWork};

use corner_set::{Pick, Single};
use edge_io::{Shelf, Steps, Text};
use refusals::{FileKey, Refusal, read_input};
use sdf_writer::Rows;
use std::alloc::Global;
use std::sync::ledger::Ledger;
use verdict_phases::PhaseEnd;
use wire_phases::wire_rows_of_file;

// The rows of the wires of a SPEF file's text, where this member of each triple counts. No file is read here, so no end is a read fault.
fn wires_of_text<L: Ledger>(
    alloc: Global,
    text: Text,
    pick: Pick,
    steps: &mut Steps<L>,
) -> Result<Rows<Single>, PhaseEnd<Refusal, FileKey>>
    requires { length text < 2 ^ 30 }
    ensures follows { Follows (WithoutFile (TextGives (sole_corner pick) text)) result }
    ensures steps { IsWithin (TextWork (sole_corner pick) text) steps.old steps.new }
    ensures no_steps { OnEarly result (steps.new ≡ steps.old) }
{
    let rows = wire_rows_of_file(alloc, text, pick, steps)?;
    Ok(rows)
}

/// The rows of the wires of the SPEF file of that name, where this member of each triple counts.
#[tactic(auto, using(crate::specs::CommandRows::at_reading, crate::proofs::WireTexts::text_follows, crate::proofs::WithoutFile::unfaulted, crate::proofs::RowsWork::no_file_work, crate::proofs::RowsWork::file_work))]
pub fn wires<H: Shelf, L: Ledger>(
    alloc: Global,
    shelf: &mut H,
    name: &Text,
    pick: Pick,
    steps: &mut Steps<L>,
) -> Result<Rows<Single>, PhaseEnd<Refusal, FileKey>>
    ensures follows { Follows (WiresGives (sole_corner pick) (H.held shelf.old) name.now) result }
    ensures fault { AtReadFault result (λ key. (key ≡ Spef)
        × (Rose (H.faults shelf.old) (H.faults shelf.new) ⊎ TellsMissing (H.held shelf.old) name.now)) }
    ensures opens { RoseBy 1 (H.opens shelf.old) (H.opens shelf.new) }
    ensures steps { IsWithin (WiresWork (sole_corner pick) (H.held shelf.old) name.now) steps.old steps.new }
    ensures no_steps { OnEarly result (steps.new ≡ steps.old) }
{
    let text = read_input(alloc, shelf, name, FileKey::Spef)?;
    wires_of_text(alloc, text, pick, steps)
}
