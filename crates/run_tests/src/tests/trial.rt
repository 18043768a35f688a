//! `trial`, which reads no file. The sums are worked by hand. Each inverter has 10 and 12 ps. The chain has 1 ohm into 2 fF, so a wire
//! of 2 fs. The block has 100 ohm into 3 fF before each of its five inverters, 300 fs, and 100 ohm into 2 fF at its end, 200 fs.
use super::{Plan, expects};
use std::test::Fail;

#[test]
fn a_chain_and_a_block_are_summed(rt: HostRuntime) -> Result<(), Fail> {
    let none = b"".as_slice();
    let mut plan = Plan::of(b"trial\n--shape\nchain\n--size\n1\n", b"");
    // No call of the shelf is made, so none fails.
    plan.failing_read = 1;
    let line = b"wires 3 paths 2 sum 44.002 largest 12.000\n";
    expects(&rt, &rt, &plan, 0, line, none)?;
    let plan = Plan::of(b"trial\n--size\n5\n--shape\nblock\n", b"");
    let line = b"wires 6 paths 5 sum 111.700 largest 12.000\n";
    expects(&rt, &rt, &plan, 0, line, none)?;
    let plan = Plan::of(b"trial\n--size\n5\n", b"");
    expects(&rt, &rt, &plan, 2, none, b"gdc: usage: missing --shape\n")?;
    Ok(())
}
