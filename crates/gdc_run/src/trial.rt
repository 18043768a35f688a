//! The command `trial`: the delays of a design that is made by its shape and size, read back.
ghost use Rattle.std.specs.Prelude.{◌≡◌, ◌≤◌, IfOk};
ghost use Rattle.corner_set.specs.declared.pick.Pick.TheVariants.{Typ};
ghost use Rattle.name_table.specs.WellSpelled.{IsWellSpelled};
ghost use Rattle.sdf_read_back.specs.ReadBack.{AreFit};
ghost use Rattle.sdf_read_back.specs.Rows.{read_back_rows};
ghost use Rattle.verdict_phases.specs.Phases.{Follows};
ghost use Rattle.refusals.specs.Refused.{AtReadFault};
ghost use Rattle.refusals.specs.EarlyRefusals.{OnEarly};
ghost use Rattle.wire_phases.specs.SpefWork.{IsWithin};
ghost use Rattle.gdc_run.specs.Trial.{trial_files, trial_names, trial_settings, TrialRows, TrialGives, TrialWork};

use crate::design::design_rows;
use corner_set::{Beyond, Missing, Pick, Single, WireSlew};
use delay_core::{Files, Settings};
use delay_units::{Atto, Farads};
use edge_io::{OutOfMemory, Steps, Text, TextList};
use gdc_words::Shape;
use refusals::{FileKey, Refusal};
use sdf_read_back::read_back;
use sdf_reader::{SdfEnd, SdfRows, read};
use sdf_writer::{Rows, sdf_text_of};
use std::alloc::Global;
use std::sync::ledger::Ledger;
use trial_files::{TrialFiles, TrialShelf, block_files, chain_files};
use verdict_phases::PhaseEnd;

// The slew at the input port: 20 ps, in attoseconds.
const INPUT_SLEW: i64 = 20_000_000;

// How many bytes the reader of SDF takes, whose places have 32 bits.
const READ_LIMIT: usize = u32::MAX as usize;

// The files of a shape and a size.
fn files_of(alloc: Global, shape: Shape, size: u32) -> Result<TrialFiles, OutOfMemory>
    requires some { 1 ≤ size }
    requires within { size ≤ 600000 }
    ensures { IfOk result (λ files. files ≡ trial_files shape size) }
{
    match shape {
        Shape::Chain => chain_files(alloc, size),
        Shape::Block => block_files(alloc, size),
    }
}

// The names of the files.
fn names_of(alloc: Global) -> Result<Files, OutOfMemory>
    ensures { IfOk result (λ names. names ≡ trial_names) }
{
    let mut libraries = TextList::new(alloc);
    libraries.push(Text::from_bytes(alloc, b"library")?)?;
    Ok(Files {
        netlist: Text::from_bytes(alloc, b"netlist")?,
        libraries,
        spef: Text::from_bytes(alloc, b"spef")?,
    })
}

// What is asked beside the files.
fn settings_of(alloc: Global) -> Result<Settings, OutOfMemory>
    ensures { IfOk result (λ settings. settings ≡ trial_settings) }
{
    Ok(Settings {
        top: Text::from_bytes(alloc, b"top")?,
        input_slew: Atto(INPUT_SLEW),
        port_load: Farads(0),
        pick: Pick::Typ,
        missing: Missing::Refuse,
        beyond: Beyond::Refuse,
        wire_slew: WireSlew::Same,
    })
}

// The rows of the design of a shape and a size.
#[tactic(auto, using(crate::proofs::MadeFiles::no_trial_work))]
fn trial_rows<L: Ledger>(
    alloc: Global,
    shape: Shape,
    size: u32,
    steps: &mut Steps<L>,
) -> Result<Rows<Single>, PhaseEnd<Refusal, FileKey>>
    requires some { 1 ≤ size }
    requires within { size ≤ 600000 }
    ensures follows { Follows (TrialRows shape size) result }
    ensures fit { IfOk result (AreFit IsWellSpelled 1) }
    // each file that is read is held, and the shelf has no faults
    ensures fault { AtReadFault result (λ key. ⊥) }
    ensures steps { IsWithin (TrialWork shape size) steps.old steps.new }
    ensures no_steps { OnEarly result (steps.new ≡ steps.old) }
{
    let files = files_of(alloc, shape, size)?;
    let names = names_of(alloc)?;
    let settings = settings_of(alloc)?;
    let mut shelf = TrialShelf::new(&files);
    design_rows::<Single, TrialShelf<'_>, L>(alloc, &mut shelf, &names, &settings, steps)
}

// What is read of the SDF text of rows. A text past what the reader takes counts as want of memory: no size makes so long a text.
fn rows_read_back(alloc: Global, rows: &Rows<Single>) -> Result<SdfRows, OutOfMemory>
    requires { AreFit IsWellSpelled 1 rows.now }
    ensures { IfOk result (λ back. back ≡ read_back_rows rows.now) }
{
    read_back();
    let text = sdf_text_of(alloc, rows)?;
    if READ_LIMIT < text.len() {
        return Err(OutOfMemory);
    }
    match read(alloc, text.bytes()) {
        Ok(back) => Ok(back),
        Err(SdfEnd::Syntax { token: _, cause: _ }) => unreachable!(),
        Err(SdfEnd::OutOfMemory) => Err(OutOfMemory),
    }
}

/// The rows that are read back of the delays of the design of a shape and a size. No read fault is answered.
#[tactic(auto, using(crate::specs::Trial::is_refused, crate::specs::Trial::is_read_back))]
pub fn trial<L: Ledger>(
    alloc: Global,
    shape: Shape,
    size: u32,
    steps: &mut Steps<L>,
) -> Result<SdfRows, PhaseEnd<Refusal, FileKey>>
    requires some { 1 ≤ size }
    requires within { size ≤ 600000 }
    ensures follows { Follows (TrialGives shape size) result }
    ensures fault { AtReadFault result (λ key. ⊥) }
    ensures steps { IsWithin (TrialWork shape size) steps.old steps.new }
    ensures no_steps { OnEarly result (steps.new ≡ steps.old) }
{
    match trial_rows(alloc, shape, size, steps) {
        Ok(rows) => match rows_read_back(alloc, &rows) {
            Ok(back) => Ok(back),
            Err(OutOfMemory) => Err(PhaseEnd::OutOfMemory),
        },
        Err(PhaseEnd::Refused(refusal)) => Err(PhaseEnd::Refused(refusal)),
        Err(PhaseEnd::ReadFault(_)) => unreachable!(),
        Err(PhaseEnd::OutOfMemory) => Err(PhaseEnd::OutOfMemory),
    }
}
