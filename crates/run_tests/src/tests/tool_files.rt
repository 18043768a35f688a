//! `calc` on files as the usual tools write them, and on the smallest library.
use super::calc::{BARE, WRITTEN};
use super::{Plan, expects, expects_sdf};
use std::test::Fail;

/// An inverter whose lists of values stand on two lines each, with a comment before the cell, and an attribute that a line end closes.
const LIBRARY: &[u8] = b"library (L) {
  time_unit : \"1ps\";
  capacitive_load_unit (1, ff);
  lu_table_template (t22) {
    variable_1 : input_net_transition;
    variable_2 : total_output_net_capacitance;
    index_1 (\"10, 30\"); index_2 (\"1, 3\"); }
  /* c */
  cell (INV) {
    pin (A) { direction : input; capacitance : 1
    }
    pin (Z) { direction : output;
      timing () { related_pin : \"A\"; timing_sense : negative_unate;
        cell_rise (t22) { values (\"20, 40\", \\
                                  \"30, 60\"); }
        cell_fall (t22) { values (\"10, 20\", \\
                                  \"16, 32\"); }
        rise_transition (t22) { values (\"12, 16\", \\
                                        \"20, 28\"); }
        fall_transition (t22) { values (\"10, 14\", \\
                                        \"18, 22\"); } } } }
}
";

/// The parasitics of the inverter with the items that extraction tools put into the head, a comment, and a connection with its place,
/// its load and its cell.
const SPEF: &[u8] = b"*SPEF \"IEEE 1481-1998\"
*DESIGN \"top\"
*DATE \"today\"
*VENDOR \"v\"
*PROGRAM \"p\"
*VERSION \"1\"
*DESIGN_FLOW \"PIN_CAP NONE\"
*DIVIDER /
*DELIMITER :
*BUS_DELIMITER [ ]
*T_UNIT 1 NS
*C_UNIT 1 FF
*R_UNIT 1 OHM
*L_UNIT 1 HENRY
// c
*D_NET a 0.5
*CONN
*P a I
*I u1:A I *C 1.5 2.5 *L 0.001 *D INV
*CAP
1 a 0.5
*END
*D_NET z 2
*CONN
*I u1:Z O
*P z O
*CAP
1 z 2
*END
";

// The files give what the same ones without these items give: the first of the rows of `calc`.
#[test]
fn files_as_tools_write_them(rt: HostRuntime) -> Result<(), Fail> {
    let (words, netlist, _, first) = WRITTEN[0];
    let rows: [(&[u8], &[u8], &[u8], &[u8]); 2] = [
        (netlist, SPEF, LIBRARY, first),
        (
            b"module top; endmodule",
            BARE,
            b"library (x) { }",
            b")\n)\n",
        ),
    ];
    for (netlist, spef, library, body) in rows {
        let plan = Plan::calc(words, netlist, spef, library);
        expects_sdf(&rt, &rt, &plan, body)?;
    }
    Ok(())
}

#[test]
fn faults_of_the_words_come_in_their_order(rt: HostRuntime) -> Result<(), Fail> {
    let rows: [(&[u8], &[u8]); 3] = [
        (
            b"calc\n--netlist\nn.v\n--nets\n3\n",
            b"gdc: usage at word 4: unknown word\n",
        ),
        (
            b"lookup\n--slew\n1000000.000001\n",
            b"gdc: usage at word 3: bad value\n",
        ),
        (b"lookup\n--slew\n1000000\n", b"gdc: usage: missing --lib\n"),
    ];
    for (words, line) in rows {
        expects(&rt, &rt, &Plan::of(words, b""), 2, b"", line)?;
    }
    Ok(())
}
