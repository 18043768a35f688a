//! Words and what they ask for, in `asked`; in the other modules runs over a shelf and sinks in memory: what no clause says is that
//! memory suffices, and that the definitions mean what they should. The expected texts are worked by hand.

ghost use Rattle.std.specs.Prelude.{◌≡◌, ◌<◌};

use edge_io::{MemShelf, MemSink, OutOfMemory, Steps, Text};
use gdc_run::run;
use gdc_words::Words;
use memchr::memchr;
use std::alloc::Global;
use std::marker::Brand;
use std::process::Abort;
use std::sync::ledger::{Blank, Ledger};
use std::test::Fail;
use worked_files::SDF_HEAD;

mod asked;
mod calc;
mod corners;
mod flat;
mod lookup;
mod refused;
mod rows;
mod show;
mod slices;
mod tool_files;
mod trial;
mod words;

/// A run to try: its words, one a line, the bytes of its file, and the faults of the outside.
#[derive(Clone, Copy)]
struct Plan<'a> {
    words: &'a [u8],
    /// Words that stand behind these.
    point: &'a [u8],
    /// What stands in `a.spef` and in `a.sdf`.
    file: &'a [u8],
    /// What stands in `a.lib`.
    library: &'a [u8],
    /// What stands in `min.lib`, in `typ.lib` and in `max.lib`.
    corners: [&'a [u8]; 3],
    /// What stands in `a.v`.
    netlist: &'a [u8],
    /// How many bytes a call of the sink for the text takes.
    most: usize,
    /// The call of that sink that fails, or 0.
    failing_write: u64,
    /// The call of the shelf that fails, or 0.
    failing_read: u64,
}

impl<'a> Plan<'a> {
    /// `wires` over these bytes, with no fault.
    fn wires(spef: &'a [u8]) -> Plan<'a> {
        Plan::of(b"wires\n--spef\na.spef\n", spef)
    }

    /// `lookup` over these bytes, with these words behind its file, with no fault.
    fn lookup(point: &'a [u8], library: &'a [u8]) -> Plan<'a> {
        Plan {
            point,
            ..Plan::of(b"lookup\n--lib\na.lib\n", library)
        }
    }

    /// `flat` of the module `top` over this netlist and this library, with no fault.
    fn flat(netlist: &'a [u8], library: &'a [u8]) -> Plan<'a> {
        Plan {
            netlist,
            ..Plan::of(b"flat\n--netlist\na.v\n--top\ntop\n--lib\na.lib\n", library)
        }
    }

    /// `calc` of the module `top` over these files, with these words behind them, with no fault.
    fn calc(point: &'a [u8], netlist: &'a [u8], spef: &'a [u8], library: &'a [u8]) -> Plan<'a> {
        let words = b"calc\n--netlist\na.v\n--top\ntop\n--spef\na.spef\n--lib\na.lib\n";
        Plan {
            point,
            netlist,
            library,
            ..Plan::of(words, spef)
        }
    }

    /// `calc` of the module `top` with a library for each corner, with these words behind them, with no fault.
    fn corners(
        point: &'a [u8],
        netlist: &'a [u8],
        spef: &'a [u8],
        corners: [&'a [u8]; 3],
    ) -> Plan<'a> {
        let words =
            b"calc\n--netlist\na.v\n--top\ntop\n--spef\na.spef\n--lib-min\nmin.lib\n--lib-typ\ntyp.lib\n--lib-max\nmax.lib\n";
        Plan {
            point,
            netlist,
            corners,
            ..Plan::of(words, spef)
        }
    }

    /// These words over these bytes, with no fault.
    fn of(words: &'a [u8], file: &'a [u8]) -> Plan<'a> {
        Plan {
            words,
            point: b"",
            file,
            library: file,
            corners: [file; 3],
            netlist: b"",
            most: 1000,
            failing_write: 0,
            failing_read: 0,
        }
    }
}

/// How a run ended, and what it wrote.
#[derive(Drop)]
struct Tried {
    status: u8,
    out: MemSink,
    err: MemSink,
}

/// Up to the byte, and behind it; the whole where the byte does not stand.
fn cut_at(bytes: &[u8], byte: u8) -> (&[u8], &[u8]) {
    match memchr(byte, bytes) {
        Some(place) => (bytes.split_at(place).0, bytes.split_at(place + 1).1),
        None => (bytes, &[]),
    }
}

// Puts the words, one a line, at the end.
fn put_words(alloc: Global, words: &mut Words, lines: &[u8]) -> Result<(), OutOfMemory> {
    let mut rest = lines;
    for _ in 0..lines.len() {
        if rest.is_empty() {
            break;
        }
        let (line, after) = cut_at(rest, b'\n');
        words.push(Text::from_bytes(alloc, line)?)?;
        rest = after;
    }
    Ok(())
}

fn words_of(alloc: Global, plan: &Plan) -> Result<Words, OutOfMemory> {
    let mut words = Words::new(alloc);
    put_words(alloc, &mut words, plan.words)?;
    put_words(alloc, &mut words, plan.point)?;
    Ok(words)
}

fn shelf_of(alloc: Global, plan: &Plan) -> Result<MemShelf, OutOfMemory> {
    let mut shelf = MemShelf::new(alloc, 7);
    for (name, held) in [
        (b"a.spef".as_slice(), plan.file),
        (b"a.sdf".as_slice(), plan.file),
        (b"a.lib".as_slice(), plan.library),
        (b"min.lib".as_slice(), plan.corners[0]),
        (b"typ.lib".as_slice(), plan.corners[1]),
        (b"max.lib".as_slice(), plan.corners[2]),
        (b"a.v".as_slice(), plan.netlist),
    ] {
        let name = Text::from_bytes(alloc, name)?;
        let held = Text::from_bytes(alloc, held)?;
        shelf.put(name, held)?;
    }
    shelf.fail_at(plan.failing_read)?;
    Ok(shelf)
}

fn try_in<L: Ledger>(rt: &HostRuntime, blank: Blank, plan: &Plan) -> Result<Tried, OutOfMemory>
    requires name { blank.name ≡ L.name }
    requires parts { blank.parts ≡ L.parts }
    requires some_part { 0 < blank.parts }
{
    let alloc = rt.alloc();
    let words = words_of(alloc, plan)?;
    let mut shelf = shelf_of(alloc, plan)?;
    let mut out = MemSink::new(alloc, plan.most.max(1), 100_000)?;
    out.fail_at(plan.failing_write)?;
    let mut err = MemSink::new(alloc, 1000, 100_000)?;
    let mut steps = Steps::<L>::new(rt, blank);
    let outcome = run(alloc, &words, &mut shelf, &mut out, &mut err, &mut steps);
    Ok(Tried {
        status: outcome.status(),
        out,
        err,
    })
}

fn try_plan(rt: &HostRuntime, plan: &Plan) -> Result<Tried, OutOfMemory> {
    try_in::<Brand>(rt, Blank::new(1), plan)
}

/// The run ends with this status, and has written this text and this line.
fn expects(
    rt: &HostRuntime,
    abort: &impl Abort,
    plan: &Plan,
    status: u8,
    out: &[u8],
    err: &[u8],
) -> Result<(), OutOfMemory> {
    let tried = try_plan(rt, plan)?;
    assert_eq!(abort; tried.err.written(), err);
    assert_eq!(abort; tried.out.written(), out);
    assert_eq!(abort; tried.status, status);
    Ok(())
}

/// The run ends well, and has written the SDF text of the design `top` with this behind its head.
fn expects_sdf(
    rt: &HostRuntime,
    abort: &impl Abort,
    plan: &Plan,
    body: &[u8],
) -> Result<(), OutOfMemory> {
    let mut text = Text::from_bytes(rt.alloc(), SDF_HEAD)?;
    text.push_all(body)?;
    expects(rt, abort, plan, 0, text.bytes(), b"")
}
