//! Each fault of the words that can come, once, with its place and its line.
use super::{Plan, expects};
use std::test::Fail;

#[test]
fn each_fault_of_the_words_has_its_line(rt: HostRuntime) -> Result<(), Fail> {
    let none = b"".as_slice();
    let plan = Plan::of(b"", b"");
    expects(
        &rt,
        &rt,
        &plan,
        2,
        none,
        b"gdc: usage at word 1: no command\n",
    )?;
    let plan = Plan::of(b"wire\n", b"");
    expects(
        &rt,
        &rt,
        &plan,
        2,
        none,
        b"gdc: usage at word 1: unknown command\n",
    )?;
    let plan = Plan::of(b"wires\n--spec\n", b"");
    expects(
        &rt,
        &rt,
        &plan,
        2,
        none,
        b"gdc: usage at word 2: unknown word\n",
    )?;
    let plan = Plan::of(b"wires\n--spef\n--spef\n--spef\nb\n", b"");
    expects(
        &rt,
        &rt,
        &plan,
        2,
        none,
        b"gdc: usage at word 4: repeated\n",
    )?;
    let plan = Plan::of(b"wires\n--spef\n", b"");
    expects(
        &rt,
        &rt,
        &plan,
        2,
        none,
        b"gdc: usage at word 2: missing value\n",
    )?;
    let plan = Plan::of(b"wires\n--spef\n\n", b"");
    expects(
        &rt,
        &rt,
        &plan,
        2,
        none,
        b"gdc: usage at word 3: bad value\n",
    )?;
    let plan = Plan::of(b"wires\n--triple\nmid\n", b"");
    expects(
        &rt,
        &rt,
        &plan,
        2,
        none,
        b"gdc: usage at word 3: bad value\n",
    )?;
    let plan = Plan::of(b"wires\n--triple\nmin\n", b"");
    expects(&rt, &rt, &plan, 2, none, b"gdc: usage: missing --spef\n")?;
    let plan = Plan::of(b"show\n", b"");
    expects(&rt, &rt, &plan, 2, none, b"gdc: usage: missing --sdf\n")?;
    Ok(())
}

#[test]
fn faults_of_the_outside_have_their_lines(rt: HostRuntime) -> Result<(), Fail> {
    let none = b"".as_slice();
    let plan = Plan::of(b"wires\n--spef\nb.spef\n", b"");
    expects(&rt, &rt, &plan, 3, none, b"gdc: read fault --spef\n")?;
    let plan = Plan::of(b"show\n--sdf\nb.sdf\n", b"");
    expects(&rt, &rt, &plan, 3, none, b"gdc: read fault --sdf\n")?;
    let mut plan = Plan::wires(b"*SPEF \"x\"");
    plan.failing_read = 2;
    expects(&rt, &rt, &plan, 3, none, b"gdc: read fault --spef\n")?;
    Ok(())
}
