//! The command `calc`: the delays of the wires and the cells of a design.
ghost use Rattle.std.specs.Prelude.{◌≡◌, ◌+◌, ◌∷◌, ◌++◌, [], IsTrue, IfOk, OnOk};
ghost use Rattle.edge_io.specs.Counts.{RoseBy};
ghost use Rattle.name_table.specs.WellSpelled.{IsWellSpelled};
ghost use Rattle.sdf_read_back.specs.ReadBack.{AreFit};
ghost use Rattle.spef_nets.specs.Drafts.{corners_of};
ghost use Rattle.verdict_phases.specs.Phases.{Follows};
ghost use Rattle.refusals.specs.Refused.{AtReadFault};
ghost use Rattle.refusals.specs.EarlyRefusals.{OnEarly};
ghost use Rattle.wire_phases.specs.SpefWork.{IsWithin};
ghost use Rattle.delay_core.specs.DesignTiming.{AreInRange};
ghost use Rattle.gdc_words.specs.CommandLine.{libraries_of, needs_key, value_of};
ghost use Rattle.gdc_words.specs.declared.commands.Command.TheVariants.{Calc};
ghost use Rattle.gdc_run.specs.Calculation.{corner_count, library_names, files_from, AreSettingsOf, CalcGives, CalcWork};
ghost use Rattle.gdc_run.specs.Outcomes.{HasCause};
ghost use Rattle.gdc_run.specs.ReadBack.{IsFitFor};
ghost use Rattle.gdc_run.specs.Verdict.{CalcOutput};
ghost use Rattle.gdc_run.specs.Work.{OutputWork};

use crate::design::design_rows;
use crate::output::Output;
use corner_set::{CornerSet, Single, Triple};
use delay_core::{Files, Settings};
use delay_units::{Atto, Farads};
use edge_io::{OutOfMemory, Shelf, Steps, Text, TextList};
use gdc_words::{Asked, Key, Libraries};
use refusals::{FileKey, Refusal};
use sdf_writer::Rows;
use std::alloc::Global;
use std::sync::ledger::Ledger;
use verdict_phases::PhaseEnd;

/// How many corners a run with such libraries has.
pub(crate) fn corner_count(libraries: Libraries) -> usize
    ensures { result ≡ corner_count libraries }
{
    match libraries {
        Libraries::One => Single::COUNT,
        Libraries::EachCorner => Triple::COUNT,
    }
}

// Puts the name of the file of a needed key at the end.
fn put_name(alloc: Global, asked: &Asked, key: Key, names: &mut TextList) -> Result<(), OutOfMemory>
    requires { IsTrue (needs_key asked.now.command asked.now.given key) }
    ensures { OnOk result (names.new ≡ names.old ++ value_of asked.now.given key ∷ []) }
{
    names.push(Text::from_bytes(alloc, asked.needed(key).bytes())?)
}

// The names of the libraries, in the order of the corners.
#[tactic(auto, using(crate::proofs::CalcFiles::needs_library, crate::proofs::CalcFiles::names_with))]
fn library_names(alloc: Global, asked: &Asked) -> Result<TextList, OutOfMemory>
    requires { asked.now.command ≡ Calc }
    ensures { IfOk result (λ names. names ≡ library_names asked.now (libraries_of asked.now.given)) }
{
    let mut names = TextList::new(alloc);
    match asked.libraries() {
        Libraries::One => {
            put_name(alloc, asked, Key::Lib, &mut names)?;
            Ok(names)
        }
        Libraries::EachCorner => {
            put_name(alloc, asked, Key::LibMin, &mut names)?;
            put_name(alloc, asked, Key::LibTyp, &mut names)?;
            put_name(alloc, asked, Key::LibMax, &mut names)?;
            Ok(names)
        }
    }
}

// The names of the files of a calculation.
fn files_of(alloc: Global, asked: &Asked) -> Result<Files, OutOfMemory>
    requires { asked.now.command ≡ Calc }
    ensures { IfOk result (λ files. files ≡ files_from asked.now) }
{
    Ok(Files {
        netlist: Text::from_bytes(alloc, asked.needed(Key::Netlist).bytes())?,
        libraries: library_names(alloc, asked)?,
        spef: Text::from_bytes(alloc, asked.needed(Key::Spef).bytes())?,
    })
}

// What is asked of a calculation beside its files.
fn settings_of(alloc: Global, asked: &Asked) -> Result<Settings, OutOfMemory>
    requires { asked.now.command ≡ Calc }
    ensures settings { IfOk result (AreSettingsOf asked.now) }
    ensures range { IfOk result AreInRange }
{
    let top = Text::from_bytes(alloc, asked.needed(Key::Top).bytes())?;
    Ok(Settings {
        top,
        input_slew: Atto(asked.needed_grains(Key::InputSlew) as i64),
        port_load: Farads(asked.port_load()),
        pick: asked.pick(),
        missing: asked.missing(),
        beyond: asked.beyond(),
        wire_slew: asked.wire_slew(),
    })
}

/// The rows of a design with its delays at the corners of its libraries: of the module, the files and the settings that are asked for.
#[tactic(auto, using(crate::proofs::CalcFiles::no_calc_work))]
fn calc_rows<C: CornerSet, H: Shelf, L: Ledger>(
    alloc: Global,
    shelf: &mut H,
    asked: &Asked,
    steps: &mut Steps<L>,
) -> Result<Rows<C>, PhaseEnd<Refusal, FileKey>>
    requires command { asked.now.command ≡ Calc }
    requires corners { C.COUNT ≡ corner_count (libraries_of asked.now.given) }
    ensures follows { Follows (CalcGives (corners_of C.COUNT C.number_of C.member_of) (H.held shelf.old) (files_from asked.now) asked.now)
        result }
    // each name in the rows is well spelled, and each time is of a size that is printed
    ensures fit { IfOk result (AreFit IsWellSpelled C.COUNT) }
    ensures fault { AtReadFault result
        (HasCause (H.held shelf.old) asked.now (H.faults shelf.old) (H.faults shelf.new) (H.opens shelf.old) (H.opens shelf.new)) }
    ensures opens { OnOk result (RoseBy (corner_count (libraries_of asked.now.given) + 2) (H.opens shelf.old) (H.opens shelf.new)) }
    ensures steps { IsWithin (CalcWork (corners_of C.COUNT C.number_of C.member_of) (H.held shelf.old) (files_from asked.now) asked.now)
        steps.old steps.new }
    ensures no_steps { OnEarly result (steps.new ≡ steps.old) }
{
    let files = files_of(alloc, asked)?;
    let settings = settings_of(alloc, asked)?;
    design_rows::<C, H, L>(alloc, shelf, &files, &settings, steps)
}

/// What a calculation has to write: rows of its one corner, or of each of its three.
pub fn calc<H: Shelf, L: Ledger>(
    alloc: Global,
    shelf: &mut H,
    asked: &Asked,
    steps: &mut Steps<L>,
) -> Result<Output, PhaseEnd<Refusal, FileKey>>
    requires { asked.now.command ≡ Calc }
    ensures follows { Follows (CalcOutput (H.held shelf.old) asked.now (libraries_of asked.now.given)) result }
    ensures fit { IfOk result (IsFitFor Calc) }
    ensures fault { AtReadFault result
        (HasCause (H.held shelf.old) asked.now (H.faults shelf.old) (H.faults shelf.new) (H.opens shelf.old) (H.opens shelf.new)) }
    ensures opens { OnOk result (RoseBy (corner_count (libraries_of asked.now.given) + 2) (H.opens shelf.old) (H.opens shelf.new)) }
    ensures steps { IsWithin (OutputWork (H.held shelf.old) asked.now (libraries_of asked.now.given)) steps.old steps.new }
    ensures no_steps { OnEarly result (steps.new ≡ steps.old) }
{
    match asked.libraries() {
        Libraries::One => {
            let rows = calc_rows::<Single, H, L>(alloc, shelf, asked, steps)?;
            Ok(Output::Sdf(rows))
        }
        Libraries::EachCorner => {
            let rows = calc_rows::<Triple, H, L>(alloc, shelf, asked, steps)?;
            Ok(Output::SdfOfCorners(rows))
        }
    }
}
