//! gdc: delays for chip sign-off: of wires, from SPEF to SDF, and of cells of a Liberty library; and the rows of SDF files.
//!
//! This crate is the edge of the program. It collects the words, makes the shelf and the streams of the system, and ends with the
//! status of what `gdc_run::run` answers. The theorem of the program is the contract of that call.
#![tactic(auto)]

ghost use Rattle.std.specs.Prelude.{◌≡◌, ◌<◌};

mod command_line;

use crate::command_line::read_command_line;
use edge_io::{FileShelf, StdErr, StdOut, Steps};
use gdc_run::{Outcome, run};
use std::marker::Brand;
use std::process::ExitCode;
use std::sync::ledger::{Blank, Ledger};

/// Runs over the files and the streams of the system. The answer is the exit status.
fn run_real<L: Ledger>(rt: HostRuntime, blank: Blank) -> u8
    requires name { blank.name ≡ L.name }
    requires parts { blank.parts ≡ L.parts }
    requires some_part { 0 < blank.parts }
{
    let alloc = rt.alloc();
    let Ok(words) = read_command_line(&rt, alloc) else {
        return Outcome::OutOfMemory.status();
    };
    let mut out = StdOut::new(rt.stdout());
    let mut err = StdErr::new(rt.stderr());
    let mut steps = Steps::<L>::new(&rt, blank);
    let mut shelf = FileShelf::new(rt);
    run(alloc, &words, &mut shelf, &mut out, &mut err, &mut steps).status()
}

fn main(rt: HostRuntime) -> ExitCode {
    ExitCode::from(run_real::<Brand>(rt, Blank::new(1)))
}
