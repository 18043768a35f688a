//! `flat`. The texts are worked by hand: a line for each instance with its cell, and one for each net with what drives it and how many
//! sinks it has.
use super::{Plan, expects};
use std::test::Fail;

/// An inverter, a flip-flop, a cell with a pin that is input and output, and a cell without an input.
const LIBRARY: &[u8] = b"library (L) {
  capacitive_load_unit (1, ff);
  cell (INV) {
    pin (A) { direction : input; capacitance : 1; }
    pin (Z) { direction : output;
      timing () { related_pin : \"A\"; timing_sense : negative_unate;
        cell_rise (scalar) { values (\"20\"); }
        cell_fall (scalar) { values (\"10\"); }
        rise_transition (scalar) { values (\"12\"); }
        fall_transition (scalar) { values (\"10\"); } } } }
  cell (DFF) {
    pin (CK, D) { direction : input; capacitance : 1; }
    pin (Q) { direction : output;
      timing () { related_pin : \"CK\"; timing_type : rising_edge;
        cell_rise (scalar) { values (\"100\"); }
        cell_fall (scalar) { values (\"110\"); }
        rise_transition (scalar) { values (\"15\"); }
        fall_transition (scalar) { values (\"14\"); } } }
    pin (QN) { direction : output; } }
  cell (PAD) { pin (P) { direction : inout; } pin (Z) { direction : output; } }
  cell (TIE) { pin (Z) { direction : output; } }
}
";

/// A netlist, and its text.
const FLAT: [(&[u8], &[u8]); 4] = [
    (
        b"module s (i, o); input i; output o; INV g (.A(i), .Z(o)); endmodule module top (a, z); input a; output z; wire m; s u (.i(a), .o(m)); s v (.i(m), .o(z)); endmodule",
        b"instance u/g INV\ninstance v/g INV\nnet a a 1\nnet z v/g/Z 1\nnet m u/g/Z 1\n",
    ),
    (
        b"module top (ck, q); input ck; output q; wire d; DFF u1 (.CK(ck), .D(d), .Q(q)); INV u2 (.A(q), .Z(d)); endmodule",
        b"instance u1 DFF\ninstance u2 INV\nnet ck ck 1\nnet q u1/Q 2\nnet d u2/Z 1\n",
    ),
    (
        b"module top (a, z); input a; output z; wire w; TIE t (.Z(w)); INV u1 (.A(1'b0), .Z()); endmodule",
        b"instance t TIE\ninstance u1 INV\nnet a a 0\nnet z - 1\nnet w t/Z 0\n",
    ),
    (b"module top; endmodule", b""),
];

/// A netlist, and the line of its refusal.
const REFUSED: [(&[u8], &[u8]); 15] = [
    (
        b"module top (a; endmodule",
        b"gdc: E01 netlist syntax token 5\n",
    ),
    (
        b"module top (a); input a; assign b = a; endmodule",
        b"gdc: E02 not structural assign token 10\n",
    ),
    (
        b"module top (a); input a; wire w; wire w; endmodule",
        b"gdc: E06 repeated name w\n",
    ),
    (
        b"module top (a, z); input [3:0] a; output z; INV u1 (.A(a[4]), .Z(z)); endmodule",
        b"gdc: E07 bad range a\n",
    ),
    (
        b"module top (a, z); input a; endmodule",
        b"gdc: E08 port direction z\n",
    ),
    (
        b"module other (a); input a; endmodule",
        b"gdc: E10 no top module top\n",
    ),
    (
        b"module top (a, z); input a; output z; NAND2 u1 (.A(a), .Z(z)); endmodule",
        b"gdc: E11 unknown cell NAND2 only\n",
    ),
    (
        b"module top (a, z); input a; output z; INV u1 (.B(a), .Z(z)); endmodule",
        b"gdc: E12 unknown port u1 B\n",
    ),
    (
        b"module top (a, z); input a; output z; INV u1 (.A({a, a}), .Z(z)); endmodule",
        b"gdc: E13 width u1 A want 1 got 2\n",
    ),
    (
        b"module top (a); input a; s u (.a(a)); endmodule module s (a); input a; top v (.a(a)); endmodule",
        b"gdc: E14 recursive module top\n",
    ),
    (
        b"module top (a); input [3:3] a; wire \\a[3] ; endmodule",
        b"gdc: E15 name clash a[3]\n",
    ),
    (
        b"module s; INV g (.A(1'b0)); endmodule module top; s u (); INV \\u/g (.A(1'b0)); endmodule",
        b"gdc: E15 name clash u/g\n",
    ),
    (
        b"module top (a, z); input a; output z; PAD u1 (.P(a), .Z(z)); endmodule",
        b"gdc: E16 inout pin u1 P\n",
    ),
    (
        b"module top (a, z); input a; output z; INV u1 (.A(a), .Z(z)); INV u2 (.A(a), .Z(z)); endmodule",
        b"gdc: E17 several drivers z\n",
    ),
    (
        b"module top (a); input a; TIE u1 (.Z(a)); endmodule",
        b"gdc: E17 several drivers a\n",
    ),
];

#[test]
fn each_instance_and_each_net_has_its_line(rt: HostRuntime) -> Result<(), Fail> {
    for row in &FLAT {
        let plan = Plan::flat(row.0, LIBRARY);
        expects(&rt, &rt, &plan, 0, row.1, b"")?;
    }
    Ok(())
}

#[test]
fn a_netlist_is_refused(rt: HostRuntime) -> Result<(), Fail> {
    for row in &REFUSED {
        let plan = Plan::flat(row.0, LIBRARY);
        expects(&rt, &rt, &plan, 1, b"", row.1)?;
    }
    Ok(())
}

/// The netlist is refused before the library is, where its grammar, its names or the walk through its top are at fault, and behind it
/// where a cell or a connection is.
#[test]
fn the_library_is_read_behind_the_walk(rt: HostRuntime) -> Result<(), Fail> {
    let library: &[u8] = b"library (x) { cell (";
    for row in &[REFUSED[0], REFUSED[4], REFUSED[5], REFUSED[9]] {
        let plan = Plan::flat(row.0, library);
        expects(&rt, &rt, &plan, 1, b"", row.1)?;
    }
    for row in &[REFUSED[6], REFUSED[7], REFUSED[14]] {
        let plan = Plan::flat(row.0, library);
        let line = b"gdc: E03 library syntax only token 8 line 1 end inside\n";
        expects(&rt, &rt, &plan, 1, b"", line)?;
    }
    Ok(())
}

#[test]
fn a_file_that_cannot_be_read_is_a_read_fault(rt: HostRuntime) -> Result<(), Fail> {
    let mut plan = Plan::flat(FLAT[0].0, LIBRARY);
    plan.words = b"flat\n--netlist\nb.v\n--top\ntop\n--lib\na.lib\n";
    expects(&rt, &rt, &plan, 3, b"", b"gdc: read fault --netlist\n")?;
    plan.words = b"flat\n--netlist\na.v\n--top\ntop\n--lib\nb.lib\n";
    expects(&rt, &rt, &plan, 3, b"", b"gdc: read fault --lib\n")?;
    Ok(())
}

#[test]
fn a_cut_list_of_instances_is_a_write_fault(rt: HostRuntime) -> Result<(), Fail> {
    let mut plan = Plan::flat(FLAT[0].0, LIBRARY);
    plan.most = 9;
    plan.failing_write = 2;
    expects(&rt, &rt, &plan, 4, b"instance ", b"gdc: write fault\n")?;
    Ok(())
}
