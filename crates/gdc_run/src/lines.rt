//! The line that says how a run ended.
ghost use Rattle.std.specs.Prelude.{◌≡◌};
ghost use Rattle.edge_io.specs.Writing.{Writes};
ghost use Rattle.gdc_run.specs.Outcomes.{OnDone};
ghost use Rattle.gdc_run.specs.Lines.{kind_text, usage_line, line_of};

use crate::outcome::Outcome;
use edge_io::{Failed, Sink, write_2, write_3, write_5};
use gdc_words::{UsageFault, UsageKind};
use itoa::Buffer;
use refusals::write_refusal;

/// The words that the line has for a kind of fault.
fn kind_text(kind: UsageKind) -> &'static [u8]
    ensures { result.now ≡ kind_text kind }
{
    match kind {
        UsageKind::NoCommand => b"no command",
        UsageKind::UnknownCommand => b"unknown command",
        UsageKind::UnknownWord => b"unknown word",
        UsageKind::Repeated => b"repeated",
        UsageKind::MissingValue => b"missing value",
        UsageKind::BadValue => b"bad value",
        UsageKind::Mixed => b"mixed",
        UsageKind::MissingKey => b"missing",
    }
}

fn say_usage<E: Sink>(fault: &UsageFault, err: &mut E) -> Result<(), Failed>
    ensures writes { Writes (usage_line fault.now.kind fault.now.place fault.now.key) (E.written err.old) (E.written err.new)
        (E.faults err.old) (E.faults err.new) result }
{
    let kind = kind_text(fault.kind);
    match &fault.key {
        Some(key) => write_5(err, b"gdc: usage: ", kind, b" ", key.bytes(), b"\n"),
        None => {
            let mut buffer = Buffer::new();
            let place = buffer.format(fault.place).as_bytes();
            write_5(err, b"gdc: usage at word ", place, b": ", kind, b"\n")
        }
    }
}

/// Writes the line of an answer of a run with so many corners, and nothing where the run is done.
pub fn say<E: Sink>(outcome: &Outcome, corners: usize, err: &mut E) -> Result<(), Failed>
    ensures writes { Writes (line_of corners outcome.now) (E.written err.old) (E.written err.new) (E.faults err.old)
        (E.faults err.new) result }
    ensures untouched { OnDone outcome.now (err.new ≡ err.old) }
{
    match outcome {
        Outcome::Done => Ok(()),
        Outcome::Refused(refusal) => write_refusal(refusal, corners, err),
        Outcome::Usage(fault) => say_usage(fault, err),
        Outcome::ReadFault(key) => write_3(err, b"gdc: read fault ", key.word(), b"\n"),
        Outcome::WriteFault => write_2(err, b"gdc: write fault", b"\n"),
        Outcome::OutOfMemory => write_2(err, b"gdc: out of memory", b"\n"),
    }
}
