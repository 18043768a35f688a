//! Each refusal of a SPEF file once, with its line; the expected lines come from an independent calculator.
use super::{Plan, cut_at, expects};
use edge_io::{OutOfMemory, Text};
use std::process::Abort;
use std::test::Fail;

/// A file and, behind the bar, the line of its refusal.
const REFUSED: &[u8] =
    b"*SPEF \"x\" *DESIGN \"t\" *C_UNIT 1 FF *R_UNIT 1 OHM x|gdc: E04 spef syntax token 11
*SPEF \"x\" *DESIGN \"t\" *C_UNIT 1 FF *R_UNIT 1 OHM *D_NET n 0 *CONN *I d X *END|gdc: E04 spef syntax token 17
*SPEF \"x\" *DESIGN \"t\" *C_UNIT 1 FF *R_UNIT 1 OHM *R_NET n 0 *END|gdc: E05 spef form *R_NET token 11
*SPEF \"x\" *DESIGN \"t\" *C_UNIT 1 FF *R_UNIT 1 OHM *D_NET n 0 *INDUC *END|gdc: E05 spef form *INDUC token 14
*SPEF \"x\" *C_UNIT 0 FF *R_UNIT 1 OHM *D_NET n 0 *CONN *I u1:Z O *I u2:A I *L 1 *END|gdc: E30 spef number bad unit token 4
*SPEF \"x\" *C_UNIT 1 FF *R_UNIT 1 OHMS *D_NET n 0 *CONN *I u1:Z O *I u2:A I *L 1 *END|gdc: E30 spef number bad unit token 7
*SPEF \"x\" *R_UNIT 1 OHM *D_NET n 0 *CONN *I u1:Z O *I u2:A I *L 1 *END|gdc: E30 spef number bad unit token 0
*SPEF \"x\" *DESIGN \"t\" *C_UNIT 1 FF *R_UNIT 1 OHM *NAME_MAP *1 a *2 b *01 c *D_NET n 0 *CONN *I u1:Z O *I u2:A I *L 1 *END|gdc: E31 name index repeated token 16
*SPEF \"x\" *DESIGN \"t\" *C_UNIT 1 FF *R_UNIT 1 OHM *NAME_MAP *1 a *D_NET *2 0 *CONN *I u1:Z O *I u2:A I *L 1 *END|gdc: E31 name index unknown token 15
*SPEF \"x\" *DESIGN \"t\" *C_UNIT 1 FF *R_UNIT 1 OHM *D_NET n 0 *CONN *I u1:Z O *I u2:A I *L 1 *CAP 1 u2:A 1234567890123456789012345678901 *END|gdc: E30 spef number bad number token 26
*SPEF \"x\" *DESIGN \"t\" *C_UNIT 1 FF *R_UNIT 1 OHM *D_NET n 0 *CONN *I u1:Z O *I u2:A I *L 1 *CAP 1 u2:A -1 *END|gdc: E30 spef number bad number token 26
*SPEF \"x\" *DESIGN \"t\" *C_UNIT 1 PF *R_UNIT 1 KOHM *D_NET n 0 *CONN *I u1:Z O *I u2:A I *L 1 *CAP 1 u2:A 1000.000001 *END|gdc: E30 spef number value too large token 26
*SPEF \"x\" *DESIGN \"t\" *C_UNIT 1 FF *R_UNIT 1 OHM *D_NET n 0 *CONN *I u1:Z O *I u2:A I *L 1 *RES 1 u1:Z u2:A 1:1e9:1 *END|gdc: E30 spef number value too large token 27
*SPEF \"x\" *DESIGN \"t\" *C_UNIT 1 FF *R_UNIT 1 OHM *D_NET n 0 *CONN *I u1:Z O *I u2:A I *L 1 *END *D_NET n 0 *CONN *I u1:Z O *I u2:A I *L 1 *END|gdc: E32 repeated net n
*SPEF \"x\" *DESIGN \"t\" *C_UNIT 1 FF *R_UNIT 1 OHM *D_NET x 0 *CONN *I u1:Z O *I u2:A I *CAP 1 p:1 q:1 0.4 *END|gdc: E37 foreign coupling x token 23
*SPEF \"x\" *DESIGN \"t\" *C_UNIT 1 FF *R_UNIT 1 OHM *D_NET n 0 *CONN *I u2:A I *END|gdc: E60 no driver n
*SPEF \"x\" *DESIGN \"t\" *C_UNIT 1 FF *R_UNIT 1 OHM *D_NET n 0 *CONN *P a O *P b B *I u2:A B *END|gdc: E60 no driver n
*SPEF \"x\" *DESIGN \"t\" *C_UNIT 1 FF *R_UNIT 1 OHM *D_NET n 0 *CONN *I u1:Z O *P a I *END|gdc: E61 several drivers n
*SPEF \"x\" *DESIGN \"t\" *C_UNIT 1 FF *R_UNIT 1 OHM *D_NET n 0 *CONN *I u1:Z O *I u2:A I *L 1 *CAP 1 n:9 1 *RES 1 u1:Z u2:A 1 *END|gdc: E35 unreached node n n:9
*SPEF \"x\" *DESIGN \"t\" *C_UNIT 1 FF *R_UNIT 1 OHM *D_NET n 0 *CONN *I d O *I s I *RES 1 d s 1 2 s b 1 3 b d 1 *END|gdc: E36 mesh n
*SPEF \"x\" *DESIGN \"t\" *C_UNIT 1 FF *R_UNIT 1 OHM *D_NET n 0 *CONN *I d O *I s I *RES 1 d s 1 2 d s 2 *END|gdc: E36 mesh n
*SPEF \"x\" *DESIGN \"t\" *C_UNIT 1 FF *R_UNIT 1 OHM *D_NET n 0 *CONN *I d O *I s I *RES 1 d s 1 2 s s 1 *END|gdc: E36 mesh n
*SPEF \"x\" *DESIGN \"t\" *C_UNIT 1 FF *R_UNIT 1 OHM *D_NET good 0 *CONN *I u1:Z O *I u2:A I *L 1 *END *D_NET bad 0 *CONN *I u2:A I *END *D_NET worse 0 *CONN *I a O *I b O *END|gdc: E60 no driver bad
";

fn is_refused(
    rt: &HostRuntime,
    abort: &impl Abort,
    spef: &[u8],
    line: &[u8],
) -> Result<(), OutOfMemory> {
    let mut wanted = Text::from_bytes(rt.alloc(), line)?;
    wanted.push_all(b"\n")?;
    expects(rt, abort, &Plan::wires(spef), 1, b"", wanted.bytes())
}

#[test]
fn each_refusal_has_its_line(rt: HostRuntime) -> Result<(), Fail> {
    let mut rest = REFUSED;
    for _ in 0..23 {
        let (row, after) = cut_at(rest, b'\n');
        let (spef, line) = cut_at(row, b'|');
        is_refused(&rt, &rt, spef, line)?;
        rest = after;
    }
    assert!(rt; rest.is_empty());
    Ok(())
}
