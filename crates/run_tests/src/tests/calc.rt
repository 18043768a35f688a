//! `calc`. The rows were worked by hand: at a slew of 20 ps and a load of 2 fF each of the four values of the inverter's tables counts a
//! quarter.
use super::{Plan, expects, expects_sdf};
use std::test::Fail;
use worked_files::{INVERTER, LIBRARY};

/// The parasitics of the inverter.
const SPEF: &[u8] = b"*SPEF \"IEEE 1481-1998\"
*DIVIDER /
*DELIMITER :
*C_UNIT 1 FF
*R_UNIT 1 OHM
*D_NET a 0.5
*CONN
*P a I
*I u1:A I
*CAP
1 a 0.5
*END
*D_NET z 2
*CONN
*I u1:Z O
*P z O
*CAP
1 z 2
*END
";

/// The same with a resistor of which the Elmore sum is 6.827492035 ps: a wire of 15 ps.
const RESISTIVE: &[u8] = b"*SPEF \"IEEE 1481-1998\"
*DIVIDER /
*DELIMITER :
*C_UNIT 1 FF
*R_UNIT 1 OHM
*D_NET a 0.5
*CONN
*P a I
*I u1:A I
*CAP
1 a 0.5
*RES
1 a u1:A 6827.492035
*END
*D_NET z 2
*CONN
*I u1:Z O
*P z O
*CAP
1 z 2
*END
";

/// The same behind an instance of an escaped name.
const ESCAPED: &[u8] = b"*SPEF \"IEEE 1481-1998\"
*DIVIDER /
*DELIMITER :
*C_UNIT 1 FF
*R_UNIT 1 OHM
*D_NET a 0.5
*CONN
*P a I
*I u1/g\\[3\\]:A I
*CAP
1 a 0.5
*END
*D_NET z 2
*CONN
*I u1/g\\[3\\]:Z O
*P z O
*CAP
1 z 2
*END
";

/// No parasitics.
pub const BARE: &[u8] = b"*SPEF \"IEEE 1481-1998\"\n";

/// Words behind the files, a netlist, parasitics, and what stands behind the head of the text.
pub const WRITTEN: [(&[u8], &[u8], &[u8], &[u8]); 10] = [
    (
        b"--input-slew\n20\n",
        INVERTER,
        SPEF,
        b"(DELAY\n(ABSOLUTE\n(INTERCONNECT a u1/A (0.000))\n(INTERCONNECT u1/Z z (0.000))\n)\n)\n)\n(CELL\n(CELLTYPE \"INV\")\n(INSTANCE u1)\n(DELAY\n(ABSOLUTE\n(IOPATH A Z (37.500) (19.500))\n)\n)\n)\n)\n",
    ),
    (
        b"--input-slew\n20\n--missing\nzero\n",
        b"module top (a, z); input a; output z; XOR u1 (.A(a), .B(1'b0), .Z(z)); endmodule",
        BARE,
        b"(DELAY\n(ABSOLUTE\n(INTERCONNECT a u1/A (0.000))\n(INTERCONNECT u1/Z z (0.000))\n)\n)\n)\n(CELL\n(CELLTYPE \"XOR\")\n(INSTANCE u1)\n(DELAY\n(ABSOLUTE\n(IOPATH A Z (50.000) (60.000))\n)\n)\n)\n)\n",
    ),
    (
        b"--input-slew\n20\n--missing\nzero\n",
        b"module top (ck, q); input ck; output q; wire d; DFF u1 (.CK(ck), .D(d), .Q(q)); INV u2 (.A(q), .Z(d)); endmodule",
        BARE,
        b"(DELAY\n(ABSOLUTE\n(INTERCONNECT ck u1/CK (0.000))\n(INTERCONNECT u1/Q u2/A (0.000))\n(INTERCONNECT u1/Q q (0.000))\n(INTERCONNECT u2/Z u1/D (0.000))\n)\n)\n)\n(CELL\n(CELLTYPE \"DFF\")\n(INSTANCE u1)\n(DELAY\n(ABSOLUTE\n(IOPATH CK Q (100.000) (110.000))\n)\n)\n)\n(CELL\n(CELLTYPE \"INV\")\n(INSTANCE u2)\n(DELAY\n(ABSOLUTE\n(IOPATH A Z (22.000) (11.500))\n)\n)\n)\n)\n",
    ),
    (
        b"--input-slew\n20\n",
        b"module top (a, z); input a; output z; INV \\u1/g[3] (.A(a), .Z(z)); endmodule",
        ESCAPED,
        b"(DELAY\n(ABSOLUTE\n(INTERCONNECT a u1\\/g\\[3\\]/A (0.000))\n(INTERCONNECT u1\\/g\\[3\\]/Z z (0.000))\n)\n)\n)\n(CELL\n(CELLTYPE \"INV\")\n(INSTANCE u1\\/g\\[3\\])\n(DELAY\n(ABSOLUTE\n(IOPATH A Z (37.500) (19.500))\n)\n)\n)\n)\n",
    ),
    (
        b"--input-slew\n20\n--missing\nzero\n",
        b"module top (z); output z; TIE u1 (.Z(n)); INV u2 (.A(n), .Z(z)); endmodule",
        BARE,
        b"(DELAY\n(ABSOLUTE\n(INTERCONNECT u2/Z z (0.000))\n(INTERCONNECT u1/Z u2/A (0.000))\n)\n)\n)\n)\n",
    ),
    (
        b"--input-slew\n20\n",
        b"module top; endmodule",
        BARE,
        b")\n)\n",
    ),
    (
        b"--input-slew\n20\n--wire-slew\nrss\n",
        INVERTER,
        RESISTIVE,
        b"(DELAY\n(ABSOLUTE\n(INTERCONNECT a u1/A (6.827))\n(INTERCONNECT u1/Z z (0.000))\n)\n)\n)\n(CELL\n(CELLTYPE \"INV\")\n(INSTANCE u1)\n(DELAY\n(ABSOLUTE\n(IOPATH A Z (41.250) (21.750))\n)\n)\n)\n)\n",
    ),
    (
        b"--input-slew\n20\n--wire-slew\nnone\n",
        INVERTER,
        RESISTIVE,
        b"(DELAY\n(ABSOLUTE\n(INTERCONNECT a u1/A (6.827))\n(INTERCONNECT u1/Z z (0.000))\n)\n)\n)\n(CELL\n(CELLTYPE \"INV\")\n(INSTANCE u1)\n(DELAY\n(ABSOLUTE\n(IOPATH A Z (37.500) (19.500))\n)\n)\n)\n)\n",
    ),
    (
        b"--input-slew\n40\n--outside\nedge\n",
        INVERTER,
        SPEF,
        b"(DELAY\n(ABSOLUTE\n(INTERCONNECT a u1/A (0.000))\n(INTERCONNECT u1/Z z (0.000))\n)\n)\n)\n(CELL\n(CELLTYPE \"INV\")\n(INSTANCE u1)\n(DELAY\n(ABSOLUTE\n(IOPATH A Z (45.000) (24.000))\n)\n)\n)\n)\n",
    ),
    (
        b"--input-slew\n20\n--port-load\n0.5\n",
        INVERTER,
        SPEF,
        b"(DELAY\n(ABSOLUTE\n(INTERCONNECT a u1/A (0.000))\n(INTERCONNECT u1/Z z (0.000))\n)\n)\n)\n(CELL\n(CELLTYPE \"INV\")\n(INSTANCE u1)\n(DELAY\n(ABSOLUTE\n(IOPATH A Z (43.750) (22.750))\n)\n)\n)\n)\n",
    ),
];

/// The same with the line of the refusal.
const REFUSED: [(&[u8], &[u8], &[u8], &[u8]); 6] = [
    (
        b"--input-slew\n20\n--missing\nzero\n",
        b"module top (s, r, q, qn); input s, r; output q, qn; NAND2 u1 (.A(s), .B(qn), .Z(q)); NAND2 u2 (.A(r), .B(q), .Z(qn)); endmodule",
        BARE,
        b"gdc: E40 loop q qn\n",
    ),
    (
        b"--input-slew\n20\n",
        b"module top (z); output z; TIE u1 (.Z(n)); INV u2 (.A(n), .Z(z)); endmodule",
        BARE,
        b"gdc: E33 missing net z\n",
    ),
    (
        b"--input-slew\n1000000\n--wire-slew\nrss\n",
        INVERTER,
        RESISTIVE,
        b"gdc: E42 slew limit a u1/A rise only 1000000000000 6827492035000000\n",
    ),
    (
        b"--input-slew\n40\n",
        INVERTER,
        SPEF,
        b"gdc: E41 outside u1 A Z rise only delay slew 40000000\n",
    ),
    (
        b"--input-slew\n20\n",
        INVERTER,
        b"*SPEF \"IEEE 1481-1998\"\n*DIVIDER /\n*DELIMITER :\n*C_UNIT 1 FF\n*R_UNIT 1 OHM\n*D_NET a 0.5\n*CONN\n*P a I\n*I u2:A I\n*CAP\n1 a 0.5\n*END\n*D_NET z 2\n*CONN\n*I u1:Z O\n*P z O\n*CAP\n1 z 2\n*END\n",
        b"gdc: E34 strange pin a u2:A\n",
    ),
    (
        b"--input-slew\n20\n",
        INVERTER,
        BARE,
        b"gdc: E33 missing net a\n",
    ),
];

#[test]
fn a_design_is_annotated(rt: HostRuntime) -> Result<(), Fail> {
    for (words, netlist, spef, body) in WRITTEN {
        let plan = Plan::calc(words, netlist, spef, LIBRARY);
        expects_sdf(&rt, &rt, &plan, body)?;
    }
    Ok(())
}

#[test]
fn a_design_is_refused(rt: HostRuntime) -> Result<(), Fail> {
    for (words, netlist, spef, line) in REFUSED {
        let plan = Plan::calc(words, netlist, spef, LIBRARY);
        expects(&rt, &rt, &plan, 1, b"", line)?;
    }
    Ok(())
}

/// The first 64 bytes of each text.
const FRONT: &[u8] = b"(DELAYFILE\n(SDFVERSION \"3.0\")\n(DESIGN \"top\")\n(PROGRAM \"gdc\")\n(VE";

/// A library that ends inside a text, one that ends inside a group, and what is told of each.
const BROKEN: [(&[u8], &[u8]); 2] = [
    (
        b"library (x) { values (\"20",
        b"gdc: E03 library syntax only token 8 line 1 open text\n",
    ),
    (
        b"library (x) { cell (",
        b"gdc: E03 library syntax only token 8 line 1 end inside\n",
    ),
];

/// The library is read before the parasitics, and both before the text is written.
#[test]
fn faults_come_in_the_order_of_the_files(rt: HostRuntime) -> Result<(), Fail> {
    let words: &[u8] = b"--input-slew\n20\n";
    for (library, line) in BROKEN {
        let plan = Plan::calc(words, INVERTER, b"", library);
        expects(&rt, &rt, &plan, 1, b"", line)?;
    }
    let mut plan = Plan::calc(words, INVERTER, SPEF, LIBRARY);
    plan.words = b"calc\n--netlist\na.v\n--top\ntop\n--lib\na.lib\n--spef\nb.spef\n";
    expects(&rt, &rt, &plan, 3, b"", b"gdc: read fault --spef\n")?;
    let mut plan = Plan::calc(words, INVERTER, SPEF, LIBRARY);
    plan.most = 64;
    plan.failing_write = 2;
    expects(&rt, &rt, &plan, 4, FRONT, b"gdc: write fault\n")?;
    Ok(())
}
