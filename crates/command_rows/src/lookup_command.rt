//! The command `lookup`: the arcs of a library's cell at one slew and one load.
ghost use Rattle.std.specs.Prelude.{◌≡◌, ℕ, ◌^◌, ◌<◌, ◌⊎◌, List, Ok, IsTrue, length, unsigned_abs};
ghost use Rattle.edge_io.specs.Counts.{Rose, RoseBy};
ghost use Rattle.edge_io.specs.Holding.{TellsMissing};
ghost use Rattle.verdict_phases.specs.Phases.{Follows, FollowsNoFile};
ghost use Rattle.liberty_groups.specs.Tables.{tree_of};
ghost use Rattle.design_phases.specs.LibraryPhases.{ParsesLibrary};
ghost use Rattle.refusals.specs.Refused.{AtReadFault, OnRefusal, WithoutFile};
ghost use Rattle.refusals.specs.declared.refusal.FileKey.TheVariants.{Lib};
ghost use Rattle.command_rows.specs.CommandRows.{ReadsArcs, LookupGives};
ghost use Rattle.refusals.specs.EarlyRefusals.{OnEarly, is_early};
ghost use Rattle.wire_phases.specs.SpefWork.{IsWithin};
ghost use Rattle.command_rows.specs.RowsWork.{CellWork, LookupWork};

use crate::arc_rows::{ArcRows, Point, arc_rows};
use design_phases::{model_cell, parse_library};
use edge_io::{Shelf, Steps, Text};
use refusals::{FileKey, Refusal, read_input};
use std::alloc::Global;
use std::sync::ledger::Ledger;
use timing_arcs::Library;
use verdict_phases::{NoFileEnd, PhaseEnd};

// The number of the corner of a run with one library.
const SOLE_CORNER: usize = 0;

// The rows of the cell of that name in a library, at a point.
#[tactic(auto, using(crate::specs::CommandRows::at_cell, crate::specs::CommandRows::of_cell, crate::proofs::RowsWork::no_cell_work, crate::proofs::RowsWork::cell_work, crate::proofs::ArcLemmas::rows_late))]
fn arc_rows_of_cell<L: Ledger>(
    alloc: Global,
    library: &Library,
    cell: &Text,
    at: Point,
    steps: &mut Steps<L>,
) -> Result<ArcRows, NoFileEnd<Refusal>>
    ensures follows { (bytes : List ℕ) → ParsesLibrary 0 bytes (Ok (tree_of library.now))
        → FollowsNoFile (ReadsArcs 0 cell.now (unsigned_abs at.slew.0) at.load.0 at.beyond bytes) result }
    ensures steps { (bytes : List ℕ) → ParsesLibrary 0 bytes (Ok (tree_of library.now))
        → IsWithin (CellWork 0 cell.now bytes) steps.old steps.new }
    ensures no_steps { OnRefusal result (λ refusal. IsTrue (is_early refusal) → steps.new ≡ steps.old) }
{
    let model = model_cell(alloc, SOLE_CORNER, library, cell)?;
    arc_rows(alloc, cell, &model, SOLE_CORNER, at, steps)
}

// The rows of the cell of that name in the text of a library, at a point.
#[tactic(auto, using(crate::specs::CommandRows::at_library, crate::proofs::RowsWork::no_cell_work))]
fn arc_rows_of_library<L: Ledger>(
    alloc: Global,
    text: Text,
    cell: &Text,
    at: Point,
    steps: &mut Steps<L>,
) -> Result<ArcRows, NoFileEnd<Refusal>>
    requires { length text < 2 ^ 32 }
    ensures follows { FollowsNoFile (ReadsArcs 0 cell.now (unsigned_abs at.slew.0) at.load.0 at.beyond text) result }
    ensures steps { IsWithin (CellWork 0 cell.now text) steps.old steps.new }
    ensures no_steps { OnRefusal result (λ refusal. IsTrue (is_early refusal) → steps.new ≡ steps.old) }
{
    let library = parse_library(alloc, SOLE_CORNER, text.bytes())?;
    arc_rows_of_cell(alloc, &library, cell, at, steps)
}

// The rows of the cell of that name in a library's text, at a point. No file is read here, so no end is a read fault.
fn arc_rows_of_text<L: Ledger>(
    alloc: Global,
    text: Text,
    cell: &Text,
    at: Point,
    steps: &mut Steps<L>,
) -> Result<ArcRows, PhaseEnd<Refusal, FileKey>>
    requires { length text < 2 ^ 32 }
    ensures follows { Follows (WithoutFile (ReadsArcs 0 cell.now (unsigned_abs at.slew.0) at.load.0 at.beyond text)) result }
    ensures steps { IsWithin (CellWork 0 cell.now text) steps.old steps.new }
    ensures no_steps { OnEarly result (steps.new ≡ steps.old) }
{
    let rows = arc_rows_of_library(alloc, text, cell, at, steps)?;
    Ok(rows)
}

/// The rows of the cell of that name in the library of that file, at a point.
#[tactic(auto, using(crate::proofs::LookupTexts::library_halts, crate::proofs::LookupTexts::arcs_follow, crate::proofs::WithoutFile::unfaulted, crate::proofs::RowsWork::no_lookup_work, crate::proofs::RowsWork::lookup_work))]
pub fn lookup<H: Shelf, L: Ledger>(
    alloc: Global,
    shelf: &mut H,
    library: &Text,
    cell: &Text,
    at: Point,
    steps: &mut Steps<L>,
) -> Result<ArcRows, PhaseEnd<Refusal, FileKey>>
    ensures follows { Follows
        (LookupGives 1 0 (H.held shelf.old) library.now cell.now (unsigned_abs at.slew.0) at.load.0 at.beyond) result }
    ensures fault { AtReadFault result (λ key. (key ≡ Lib)
        × (Rose (H.faults shelf.old) (H.faults shelf.new) ⊎ TellsMissing (H.held shelf.old) library.now)) }
    ensures opens { RoseBy 1 (H.opens shelf.old) (H.opens shelf.new) }
    ensures steps { IsWithin (LookupWork 1 0 (H.held shelf.old) library.now cell.now) steps.old steps.new }
    ensures no_steps { OnEarly result (steps.new ≡ steps.old) }
{
    let text = read_input(alloc, shelf, library, FileKey::Lib)?;
    arc_rows_of_text(alloc, text, cell, at, steps)
}
