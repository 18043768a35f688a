//! `show`, help and the version. The expected lines are worked by hand.
use super::{Plan, expects};
use gdc_words::help_text;
use std::test::Fail;

/// What `wires` writes for a net whose driver reaches two sinks.
const WIRES: &[u8] =
    b"(DELAYFILE\n(SDFVERSION \"3.0\")\n(DESIGN \"top\")\n(PROGRAM \"gdc\")\n(VERSION \"1\")\n(DIVIDER /)\n(TIMESCALE 1ps)\n(CELL\n(CELLTYPE \"top\")\n(INSTANCE)\n(DELAY\n(ABSOLUTE\n(INTERCONNECT d s1 (3.500))\n(INTERCONNECT d s2 (2.300))\n)\n)\n)\n)\n";

/// A path in a file with another divider, without a timescale, which is then 1 ns; its fall has no value.
const PATH: &[u8] =
    b"(delayfile (DIVIDER .) (CELL (CELLTYPE \"X\") (INSTANCE a.b) (DELAY (ABSOLUTE (IOPATH A Z (1:2:3) ())))))";

/// `show` over these bytes.
fn shown(sdf: &[u8]) -> Plan<'_> {
    Plan::of(b"show\n--sdf\na.sdf\n", sdf)
}

#[test]
fn rows_are_shown_with_their_summary(rt: HostRuntime) -> Result<(), Fail> {
    let lines = b"wire d s1 3.500\nwire d s2 2.300\nwires 2 paths 0 sum 5.800 largest 3.500\n";
    expects(&rt, &rt, &shown(WIRES), 0, lines, b"")?;
    let lines =
        b"path a/b A Z 1000.000:2000.000:3000.000 -\nwires 0 paths 1 sum 2000.000 largest 3000.000\n";
    expects(&rt, &rt, &shown(PATH), 0, lines, b"")?;
    let lines = b"wires 0 paths 0 sum 0.000 largest -\n";
    expects(&rt, &rt, &shown(b"(DELAYFILE)"), 0, lines, b"")?;
    Ok(())
}

#[test]
fn what_is_no_sdf_is_refused_at_its_token(rt: HostRuntime) -> Result<(), Fail> {
    let line = b"gdc: E62 sdf syntax token 4\n";
    expects(&rt, &rt, &shown(b"(DELAYFILE) x"), 1, b"", line)?;
    let line = b"gdc: E62 sdf syntax token 5\n";
    expects(
        &rt,
        &rt,
        &shown(b"(DELAYFILE (TIMESCALE 5ps))"),
        1,
        b"",
        line,
    )?;
    let line = b"gdc: E62 sdf syntax token 1\n";
    expects(&rt, &rt, &shown(b""), 1, b"", line)?;
    Ok(())
}

#[test]
fn help_and_the_version_are_written(rt: HostRuntime) -> Result<(), Fail> {
    let plan = Plan::of(b"--help\n", b"");
    expects(&rt, &rt, &plan, 0, help_text(), b"")?;
    let plan = Plan::of(b"--version\n", b"");
    expects(&rt, &rt, &plan, 0, b"gdc 1\n", b"")?;
    Ok(())
}

#[test]
fn a_cut_listing_is_a_write_fault(rt: HostRuntime) -> Result<(), Fail> {
    let mut plan = shown(WIRES);
    plan.failing_write = 2;
    let rows = b"wire d s1 3.500\nwire d s2 2.300\n";
    expects(&rt, &rt, &plan, 4, rows, b"gdc: write fault\n")?;
    Ok(())
}
