//! Inputs that are as large as a limit, and inputs that pass it. The limits are worked by hand.
ghost use Rattle.std.specs.Prelude.{◌≡◌, ◌<◌};

use edge_io::lists::push;
use edge_io::{MemShelf, MemSink, OutOfMemory, Steps, Text};
use gdc_run::run;
use gdc_words::Words;
use std::alloc::Global;
use std::marker::Brand;
use std::process::Abort;
use std::sync::ledger::{Blank, Ledger};
use std::test::Fail;

/// How many bytes of a file are read at the most, and how many capacitances and pins a net may have.
const MOST_BYTES: usize = 1 << 28;

const MOST_PARTS: usize = 1 << 19;

/// A net with a driver and a sink, up to its capacitances.
const NET: &[u8] = b"*SPEF *C_UNIT 1 FF *R_UNIT 1 OHM *D_NET n 0 *CONN *I d O *I s I *CAP\n";

/// How a run ended, and what it said.
#[derive(Drop)]
struct Tried {
    status: u8,
    err: MemSink,
}

fn words_of(alloc: Global) -> Result<Words, OutOfMemory> {
    let mut words = Words::new(alloc);
    words.push(Text::from_bytes(alloc, b"wires")?)?;
    words.push(Text::from_bytes(alloc, b"--spef")?)?;
    words.push(Text::from_bytes(alloc, b"a.spef")?)?;
    Ok(words)
}

/// `wires` over one file, of which a read gives much at once.
fn try_in<L: Ledger>(rt: &HostRuntime, blank: Blank, file: Text) -> Result<Tried, OutOfMemory>
    requires name { blank.name ≡ L.name }
    requires parts { blank.parts ≡ L.parts }
    requires some_part { 0 < blank.parts }
{
    let alloc = rt.alloc();
    let words = words_of(alloc)?;
    let mut shelf = MemShelf::new(alloc, MOST_BYTES);
    shelf.put(Text::from_bytes(alloc, b"a.spef")?, file)?;
    let mut out = MemSink::new(alloc, 1000, 1000)?;
    let mut err = MemSink::new(alloc, 1000, 1000)?;
    let mut steps = Steps::<L>::new(rt, blank);
    let outcome = run(alloc, &words, &mut shelf, &mut out, &mut err, &mut steps);
    Ok(Tried {
        status: outcome.status(),
        err,
    })
}

fn try_file(rt: &HostRuntime, file: Text) -> Result<Tried, OutOfMemory> {
    try_in::<Brand>(rt, Blank::new(1), file)
}

/// The run ends with this status, and has said this line.
fn expects(
    rt: &HostRuntime,
    abort: &impl Abort,
    file: Text,
    status: u8,
    line: &[u8],
) -> Result<(), OutOfMemory> {
    let tried = try_file(rt, file)?;
    assert_eq!(abort; tried.err.written(), line);
    assert_eq!(abort; tried.status, status);
    Ok(())
}

/// A net with so many capacitances at its sink.
fn crowded(alloc: Global, capacitances: usize) -> Result<Text, OutOfMemory> {
    let mut file = Text::from_bytes(alloc, NET)?;
    for _ in 0..capacitances {
        file.push_all(b"1 s 1\n")?;
    }
    file.push_all(b"*RES 1 d s 1 *END\n")?;
    Ok(file)
}

/// So many blanks.
fn blanks(alloc: Global, count: usize) -> Result<Text, OutOfMemory> {
    let mut bytes = Vec::with_capacity(alloc, count).map_err(|_| OutOfMemory)?;
    for _ in 0..count {
        push(&mut bytes, b' ')?;
    }
    Ok(Text::from_vec(bytes))
}

#[test]
fn a_net_of_too_many_parts_passes_a_limit(rt: HostRuntime) -> Result<(), Fail> {
    let alloc = rt.alloc();
    // Two of the parts are pins.
    let fits = crowded(alloc, MOST_PARTS - 2)?;
    expects(&rt, &rt, fits, 0, b"")?;
    let passes = crowded(alloc, MOST_PARTS - 1)?;
    expects(&rt, &rt, passes, 1, b"gdc: E50 limit net n\n")?;
    Ok(())
}

#[test]
fn a_file_of_too_many_bytes_passes_a_limit(rt: HostRuntime) -> Result<(), Fail> {
    let alloc = rt.alloc();
    let fits = blanks(alloc, MOST_BYTES)?;
    expects(&rt, &rt, fits, 1, b"gdc: E04 spef syntax token 1\n")?;
    let passes = blanks(alloc, MOST_BYTES + 1)?;
    expects(&rt, &rt, passes, 1, b"gdc: E50 limit file --spef\n")?;
    Ok(())
}
