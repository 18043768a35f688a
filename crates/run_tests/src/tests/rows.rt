//! The rows of nets. The expected lines are worked by hand or come from an independent calculator.
use super::{Plan, cut_at, expects_sdf, try_plan};
use edge_io::{OutOfMemory, Text};
use std::alloc::Global;
use std::process::Abort;
use std::test::Fail;

/// A file of the design `top` and, behind the first bar, its rows. They are: a tree with two sinks; two stars coupled; two trees
/// coupled, the far node first in one; a net without resistors; a resistor of 0 ohm; a tie, and a little less; the largest
/// capacitance and resistance of 1 kohm; a triple; a port that drives, names by the map, and an escaped name.
const NETS: &[u8] =
    b"*SPEF \"x\" *DESIGN \"top\" *C_UNIT 1 FF *R_UNIT 1 OHM *D_NET n 0 *CONN *I d O *I s1 I *L 2 *I s2 I *L 3 *CAP 1 a 10 2 s1 5 3 s2 1 *RES 1 d a 100 2 a s1 200 3 a s2 50 *END|(INTERCONNECT d s1 (3.500))|(INTERCONNECT d s2 (2.300))|
*SPEF \"x\" *DESIGN \"top\" *C_UNIT 1 FF *R_UNIT 1 OHM *D_NET x 0 *CONN *I u1:Z O *I u2:A I *L 1 *CAP 1 u2:A u4:A 0.4 *RES 1 u1:Z u2:A 100 *END *D_NET y 0 *CONN *I u3:Z O *I u4:A I *L 1 *CAP 1 u2:A u4:A 0.4 *RES 1 u3:Z u4:A 200 *END|(INTERCONNECT u1/Z u2/A (0.140))|(INTERCONNECT u3/Z u4/A (0.280))|
*SPEF \"x\" *DESIGN \"top\" *C_UNIT 1 FF *R_UNIT 1 OHM *D_NET x 0 *CONN *I u1:Z O *I u2:A I *L 1 *CAP 1 x:1 y:1 0.4 *RES 1 u1:Z x:1 100 2 x:1 u2:A 50 *END *D_NET y 0 *CONN *I u3:Z O *I u4:A I *L 1 *CAP 1 x:1 y:1 0.4 *RES 1 u3:Z y:1 200 2 y:1 u4:A 50 *END|(INTERCONNECT u1/Z u2/A (0.190))|(INTERCONNECT u3/Z u4/A (0.330))|
*SPEF \"x\" *DESIGN \"top\" *C_UNIT 1 FF *R_UNIT 1 OHM *D_NET n 0 *CONN *I d O *I s I *I t I *L 3 *CAP 1 s 5 *END|(INTERCONNECT d s (0.000))|(INTERCONNECT d t (0.000))|
*SPEF \"x\" *DESIGN \"top\" *C_UNIT 1 FF *R_UNIT 1 OHM *D_NET n 0 *CONN *I d O *I s I *L 1 *RES 1 d s 0 *END|(INTERCONNECT d s (0.000))|
*SPEF \"x\" *DESIGN \"top\" *C_UNIT 1 FF *R_UNIT 1 OHM *D_NET n 0 *CONN *I d O *I s I *L .5 *RES 1 d s 1 *END *D_NET m 0 *CONN *I e O *I t I *L .499999 *RES 1 e t 1 *END|(INTERCONNECT d s (0.001))|(INTERCONNECT e t (0.000))|
*SPEF \"x\" *DESIGN \"top\" *C_UNIT 1 PF *R_UNIT 1 KOHM *D_NET n 0 *CONN *I d O *I s I *CAP 1 s 1000 *RES 1 s d 1 *END|(INTERCONNECT d s (1000000.000))|
*SPEF \"x\" *DESIGN \"top\" *C_UNIT 1 FF *R_UNIT 1 OHM *D_NET n 0 *CONN *I d O *I s I *L 1:2:3 *RES 1 d s 100 *END|(INTERCONNECT d s (0.200))|
*SPEF \"x\" *DESIGN \"top\" *DIVIDER / *C_UNIT 1 pF *R_UNIT 1 kohm *NAME_MAP *1 n *2 u1/g\\[3\\] *D_NET *1 0 *CONN *P a I *I *2:A I *L 0.001 *CAP 1 *1:1 0.002 *RES 1 a *1:1 0.1 2 *1:1 *2:A 0.05 *END|(INTERCONNECT a u1/g\\[3\\]/A (0.350))|
";

const NO_NET: &[u8] = b"*SPEF \"x\" *DESIGN \"top\" *C_UNIT 1 FF *R_UNIT 1 OHM";

/// What stands behind the head of a text with these rows, each ended by a bar.
fn body_of(alloc: Global, rows: &[u8]) -> Result<Text, OutOfMemory> {
    let mut text = Text::from_bytes(alloc, b"(DELAY\n(ABSOLUTE\n")?;
    let mut rest = rows;
    for _ in 0..rows.len() {
        if rest.is_empty() {
            break;
        }
        let (row, after) = cut_at(rest, b'|');
        text.push_all(row)?;
        text.push_all(b"\n")?;
        rest = after;
    }
    text.push_all(b")\n)\n)\n)\n")?;
    Ok(text)
}

fn writes_rows(
    rt: &HostRuntime,
    abort: &impl Abort,
    spef: &[u8],
    rows: &[u8],
) -> Result<(), OutOfMemory> {
    let body = body_of(rt.alloc(), rows)?;
    expects_sdf(rt, abort, &Plan::wires(spef), body.bytes())
}

#[test]
fn each_net_gives_its_rows(rt: HostRuntime) -> Result<(), Fail> {
    let mut rest = NETS;
    for _ in 0..9 {
        let (case, after) = cut_at(rest, b'\n');
        let (spef, rows) = cut_at(case, b'|');
        writes_rows(&rt, &rt, spef, rows)?;
        rest = after;
    }
    assert!(rt; rest.is_empty());
    expects_sdf(&rt, &rt, &Plan::wires(NO_NET), b")\n)\n")?;
    Ok(())
}

/// A net whose load is a triple.
const TRIPLE: &[u8] =
    b"*SPEF \"x\" *DESIGN \"top\" *C_UNIT 1 FF *R_UNIT 1 OHM *D_NET n 0 *CONN *I d O *I s I *L 1:2:3 *RES 1 d s 100 *END";

#[test]
fn the_member_that_is_asked_for_counts(rt: HostRuntime) -> Result<(), Fail> {
    let alloc = rt.alloc();
    let least = Plan::of(b"wires\n--triple\nmin\n--spef\na.spef\n", TRIPLE);
    let body = body_of(alloc, b"(INTERCONNECT d s (0.100))|")?;
    expects_sdf(&rt, &rt, &least, body.bytes())?;
    let most = Plan::of(b"wires\n--spef\na.spef\n--triple\nmax\n", TRIPLE);
    let body = body_of(alloc, b"(INTERCONNECT d s (0.300))|")?;
    expects_sdf(&rt, &rt, &most, body.bytes())?;
    Ok(())
}

#[test]
fn a_cut_text_is_a_write_fault(rt: HostRuntime) -> Result<(), Fail> {
    let mut plan = Plan::wires(TRIPLE);
    plan.most = 64;
    plan.failing_write = 2;
    let tried = try_plan(&rt, &plan)?;
    assert_eq!(rt; tried.status, 4);
    assert_eq!(rt; tried.err.written(), b"gdc: write fault\n".as_slice());
    assert_eq!(rt;
        tried.out.written(),
        b"(DELAYFILE\n(SDFVERSION \"3.0\")\n(DESIGN \"top\")\n(PROGRAM \"gdc\")\n(VE".as_slice()
    );
    Ok(())
}
