//! What each command does.
ghost use Rattle.std.specs.Prelude.{◌≡◌, IfOk, OnOk};
ghost use Rattle.edge_io.specs.Counts.{RoseBy};
ghost use Rattle.verdict_phases.specs.Phases.{Follows};
ghost use Rattle.refusals.specs.Refused.{AtReadFault};
ghost use Rattle.gdc_run.specs.Outcomes.{HasCause, files_asked};
ghost use Rattle.gdc_run.specs.ReadBack.{IsFitFor};
ghost use Rattle.gdc_run.specs.Verdict.{CommandGives};
ghost use Rattle.refusals.specs.EarlyRefusals.{OnEarly};
ghost use Rattle.wire_phases.specs.SpefWork.{IsWithin};
ghost use Rattle.gdc_run.specs.Work.{CommandWork};

use crate::calc::calc;
use crate::output::Output;
use crate::trial::trial;
use command_rows::{Point, flat, lookup, show, wires};
use edge_io::{Shelf, Steps};
use gdc_words::{Asked, Command, Key};
use refusals::{FileKey, Refusal};
use std::alloc::Global;
use std::sync::ledger::Ledger;
use verdict_phases::PhaseEnd;

/// What the command that is asked for has to write.
#[tactic(auto, using(crate::proofs::Work::no_work_of_command, crate::proofs::FlatFiles::flat_cause))]
pub fn perform<H: Shelf, L: Ledger>(
    alloc: Global,
    asked: &Asked,
    shelf: &mut H,
    steps: &mut Steps<L>,
) -> Result<Output, PhaseEnd<Refusal, FileKey>>
    ensures follows { Follows (CommandGives (H.held shelf.old) asked.now.command asked.now) result }
    ensures fit { IfOk result (IsFitFor asked.now.command) }
    ensures fault { AtReadFault result
        (HasCause (H.held shelf.old) asked.now (H.faults shelf.old) (H.faults shelf.new) (H.opens shelf.old) (H.opens shelf.new)) }
    ensures steps { IsWithin (CommandWork (H.held shelf.old) asked.now.command asked.now) steps.old steps.new }
    ensures no_steps { OnEarly result (steps.new ≡ steps.old) }
    ensures opens { OnOk result (RoseBy (files_asked asked.now) (H.opens shelf.old) (H.opens shelf.new)) }
    ensures untouched { files_asked asked.now ≡ 0 → shelf.new ≡ shelf.old }
{
    match asked.command() {
        Command::Wires => {
            let rows = wires(alloc, shelf, asked.needed(Key::Spef), asked.pick(), steps)?;
            Ok(Output::Sdf(rows))
        }
        Command::Calc => calc(alloc, shelf, asked, steps),
        Command::Show => {
            let rows = show(alloc, shelf, asked.needed(Key::Sdf))?;
            Ok(Output::Listing(rows))
        }
        Command::Lookup => {
            let at = Point::new(
                asked.needed_grains(Key::Slew),
                asked.needed_grains(Key::Load),
                asked.beyond(),
            );
            let rows = lookup(
                alloc,
                shelf,
                asked.needed(Key::Lib),
                asked.needed(Key::Cell),
                at,
                steps,
            )?;
            Ok(Output::Arcs(rows))
        }
        Command::Flat => {
            let design = flat(
                alloc,
                shelf,
                asked.needed(Key::Netlist),
                asked.needed(Key::Top),
                asked.needed(Key::Lib),
            )?;
            Ok(Output::Flat(design))
        }
        Command::Trial => {
            let rows = trial(alloc, asked.shape(), asked.size(), steps)?;
            Ok(Output::Summary(rows))
        }
        Command::Help => Ok(Output::Help),
        Command::Version => Ok(Output::Version),
    }
}
