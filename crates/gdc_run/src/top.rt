//! The one call that the program makes.
ghost use Rattle.std.specs.Prelude.{◌≡◌, Result, Err, OnOk};
ghost use Rattle.edge_io.specs.Counts.{Rose};
ghost use Rattle.edge_io.specs.Told.{appended, AppendsFrontOf};
ghost use Rattle.edge_io.specs.Writing.{Writes};
ghost use Rattle.gdc_words.specs.CommandLine.{Asks};
ghost use Rattle.gdc_run.specs.Verdict.{Gives, Answers};
ghost use Rattle.gdc_run.specs.Outputs.{output_text};
ghost use Rattle.gdc_run.specs.Outcomes.{OnDone, IfRefused, IfUsage, IfReadFault, OnWriteFault, UnlessWritten, GivesText, GivesFit, GivesReadable, HasReadFault, AskForNoFile, OpenedFiles, OnceWritten, AnswersUsage};
ghost use Rattle.gdc_run.specs.OneVerdict.{OneVerdict};
ghost use Rattle.gdc_run.specs.Saying.{AskForCorners, Says};
ghost use Rattle.gdc_run.specs.Completeness.{IsComplete};
ghost use Rattle.gdc_run.specs.Ends.{MeansEnd, IfRefusedEnd, FollowsTop};
ghost use Rattle.wire_phases.specs.SpefWork.{IsWithin};
ghost use Rattle.gdc_run.specs.Work.{WordsWork, OnEarlyEnd, OnEarlyAnswer, BeforeTrees};
ghost use Rattle.verdict_phases.specs.Phases.{RefusedBy, Halt};

use crate::calc::corner_count;
use crate::laws::{always_readable, one_verdict};
use crate::lines::say;
use crate::outcome::Outcome;
use crate::output::{Output, write_output};
use crate::performing::perform;
use corner_set::{CornerSet, Single};
use edge_io::{Failed, Shelf, Sink, Steps};
use gdc_words::{UsageFault, Words, WordsEnd, read_words};
use refusals::{FileKey, Refusal};
use std::alloc::Global;
use std::sync::ledger::Ledger;
use verdict_phases::PhaseEnd;

/// Why there is nothing to write.
#[derive(Drop)]
enum End {
    Usage(UsageFault),
    Phase(PhaseEnd<Refusal, FileKey>),
    OutOfMemory,
}

impl From<WordsEnd> for End {
    ghost use Rattle.gdc_run.specs.Ends.{end_of_words};
    ghost use Rattle.std.specs.Prelude.{◌≡◌};

    ghost from_gives = { λ words end. end ≡ end_of_words words };

    fn from(end: WordsEnd) -> End {
        match end {
            WordsEnd::Usage(fault) => End::Usage(fault),
            WordsEnd::OutOfMemory => End::OutOfMemory,
        }
    }
}

impl From<PhaseEnd<Refusal, FileKey>> for End {
    ghost use Rattle.std.specs.Prelude.{◌≡◌};
    ghost use Rattle.gdc_run.specs.declared.top.End.TheVariants.{Phase};

    ghost from_gives = { λ phase end. end ≡ Phase phase };

    fn from(end: PhaseEnd<Refusal, FileKey>) -> End {
        End::Phase(end)
    }
}

/// What the words ask for, as it is to be written. `corners` becomes how many corners they ask for.
#[tactic(auto, using(crate::proofs::Work::no_words_work, crate::proofs::Work::words_work))]
fn decide<H: Shelf, L: Ledger>(
    alloc: Global,
    words: &Words,
    shelf: &mut H,
    corners: &mut usize,
    steps: &mut Steps<L>,
) -> Result<Output, End>
    ensures follows { FollowsTop words.now (H.held shelf.old) result }
    ensures fault { MeansEnd words.now (H.held shelf.old) (H.faults shelf.old) (H.faults shelf.new) (H.opens shelf.old)
        (H.opens shelf.new) result }
    ensures corners { IfRefusedEnd result (AskForCorners words.now corners.new) }
    ensures steps { IsWithin (WordsWork words.now (H.held shelf.old)) steps.old steps.new }
    ensures no_steps { OnEarlyEnd result (steps.new ≡ steps.old) }
    ensures opens { OnOk result (OpenedFiles words.now (H.opens shelf.old) (H.opens shelf.new)) }
    ensures untouched { AskForNoFile words.now → shelf.new ≡ shelf.old }
{
    let asked = read_words(alloc, words)?;
    *corners = corner_count(asked.libraries());
    let output = perform(alloc, &asked, shelf, steps)?;
    Ok(output)
}

// Writes what is decided, and lets go of it.
fn write_decided<O: Sink>(output: Output, out: &mut O) -> Result<(), Failed>
    ensures writes { Writes (output_text output) (O.written out.old) (O.written out.new) (O.faults out.old) (O.faults out.new) result }
{
    write_output(&output, out)
}

/// Decides, and writes what there is to write. `corners` becomes how many corners the words ask for.
fn answer<H: Shelf, O: Sink, L: Ledger>(
    alloc: Global,
    words: &Words,
    shelf: &mut H,
    corners: &mut usize,
    out: &mut O,
    steps: &mut Steps<L>,
) -> Outcome
    ensures done { OnDone result (GivesFit words.now (H.held shelf.old)
        (λ text. O.written out.new ≡ appended (O.written out.old) text)) }
    ensures refused { IfRefused result
        (λ refusal. Gives words.now (H.held shelf.old) (Answers (Halt (RefusedBy refusal)))) }
    ensures usage { IfUsage result (λ fault. Asks words.now (Err fault)) }
    ensures read_fault { IfReadFault result (λ key. HasReadFault words.now (H.held shelf.old) key
        (H.faults shelf.old) (H.faults shelf.new) (H.opens shelf.old) (H.opens shelf.new)) }
    ensures write_fault { OnWriteFault result (Rose (O.faults out.old) (O.faults out.new)
        × GivesText words.now (H.held shelf.old)
        (λ text. AppendsFrontOf text (O.written out.old) (O.written out.new))) }
    ensures untouched { UnlessWritten result (out.new ≡ out.old) }
    ensures corners { IfRefused result (λ _. AskForCorners words.now corners.new) }
    ensures steps { IsWithin (WordsWork words.now (H.held shelf.old)) steps.old steps.new }
    ensures no_steps { OnEarlyAnswer result (steps.new ≡ steps.old) }
    ensures opens { OnceWritten result (OpenedFiles words.now (H.opens shelf.old) (H.opens shelf.new)) }
    ensures untouched_shelf { AskForNoFile words.now → shelf.new ≡ shelf.old }
{
    match decide(alloc, words, shelf, corners, steps) {
        Err(End::Usage(fault)) => Outcome::Usage(fault),
        Err(End::Phase(PhaseEnd::Refused(refusal))) => Outcome::Refused(refusal),
        Err(End::Phase(PhaseEnd::ReadFault(key))) => Outcome::ReadFault(key),
        Err(End::Phase(PhaseEnd::OutOfMemory)) => Outcome::OutOfMemory,
        Err(End::OutOfMemory) => Outcome::OutOfMemory,
        Ok(output) => match write_decided(output, out) {
            Ok(()) => Outcome::Done,
            Err(Failed) => Outcome::WriteFault,
        },
    }
}

/// Does what the words ask for: reads the files that they name from `shelf`, writes the text to `out`,
/// and for every answer but `Done` one line to `err`.
///
/// Nothing is written to `out` before the verdict is reached. Where `err` fails, a front of the line is
/// written and the answer stays. `steps` counts the reads of nets and trees.
pub fn run<H: Shelf, O: Sink, E: Sink, L: Ledger>(
    alloc: Global,
    words: &Words,
    shelf: &mut H,
    out: &mut O,
    err: &mut E,
    steps: &mut Steps<L>,
) -> Outcome
    // Done: the verdict gives what is to be written, and its text stands behind what `out` held. What is written for `calc` is read back,
    // and so is that for `wires`, unless a name in it begins with `//`: the text says the rows that the verdict gives, and no others.
    ensures done { OnDone result (GivesReadable words.now (H.held shelf.old)
        (λ text. O.written out.new ≡ appended (O.written out.old) text)) }

    // A refusal is the verdict's.
    ensures refused { IfRefused result
        (λ refusal. Gives words.now (H.held shelf.old) (Answers (Halt (RefusedBy refusal)))) }

    // A fault of the words is answered exactly where it is their first.
    ensures usage { IfUsage result (λ fault. Asks words.now (Err fault)) }
    ensures usage_first { AnswersUsage words.now result }

    // A read fault has its cause, which both counts of the shelf show.
    ensures read_fault { IfReadFault result (λ key. HasReadFault words.now (H.held shelf.old) key
        (H.faults shelf.old) (H.faults shelf.new) (H.opens shelf.old) (H.opens shelf.new)) }

    // Where the words ask for no file, the shelf is what it was, and no read fault is answered. Once the text is written, as many files were
    // opened as the command reads.
    ensures untouched_shelf { AskForNoFile words.now → shelf.new ≡ shelf.old }
    ensures no_read_fault { IfReadFault result (λ _. AskForNoFile words.now → ⊥) }
    ensures opens { OnceWritten result (OpenedFiles words.now (H.opens shelf.old) (H.opens shelf.new)) }

    // Where the text could not be written whole, a front of it was, and the count of `out` rose.
    ensures write_fault { OnWriteFault result (Rose (O.faults out.old) (O.faults out.new)
        × GivesText words.now (H.held shelf.old)
        (λ text. AppendsFrontOf text (O.written out.old) (O.written out.new))) }

    // Every other answer leaves `out` as it was, and a run that is done leaves `err` so.
    ensures untouched { UnlessWritten result (out.new ≡ out.old) }
    ensures untouched_err { OnDone result (err.new ≡ err.old) }

    // Where no count rises, the answer is the verdict's, or memory ran out.
    ensures complete { IsComplete words.now (H.held shelf.old) (H.faults shelf.old) (H.faults shelf.new)
        (O.faults out.old) (O.faults out.new) result }

    // The verdict is one.
    ensures one_verdict { OneVerdict }

    // The answer's line stands behind what `err` held, with as many corners as the words ask for.
    ensures said { Says words.now result (E.written err.old) (E.written err.new) (E.faults err.old) (E.faults err.new) }

    // No more steps than 16 for each resistor, capacitance to ground and connection of the nets, and for `calc` and `trial` 160 for each
    // edge of an arc beside them; and none before all sections are read without a fault, or before the model of a cell is made.
    ensures steps { IsWithin (WordsWork words.now (H.held shelf.old)) steps.old steps.new }
    ensures no_steps { BeforeTrees words.now result (steps.new ≡ steps.old) }
{
    always_readable();
    one_verdict();
    let mut corners = Single::COUNT;
    let outcome = answer(alloc, words, shelf, &mut corners, out, steps);
    // The answer stays where its line could not be written.
    let _ = say(&outcome, corners, err);
    outcome
}
