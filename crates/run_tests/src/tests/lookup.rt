//! `lookup`. The library's tables are small enough to work each line by hand: at a slew of 20 ps and a load of 2 fF each of the four
//! values of a table counts a quarter.
use super::{Plan, expects};
use std::test::Fail;
use worked_files::LIBRARY;

/// Words behind `lookup --lib a.lib`, one a line, and what comes of them over the library: status, text and line.
const ROWS: [(&[u8], u8, &[u8], &[u8]); 12] = [
    (
        b"--cell\nINV\n--slew\n20\n--load\n2\n",
        0,
        b"A Z rise 37.500 19.000000\nA Z fall 19.500 16.000000\n",
        b"",
    ),
    (
        b"--cell\nINV\n--slew\n30\n--load\n3\n",
        0,
        b"A Z rise 60.000 28.000000\nA Z fall 32.000 22.000000\n",
        b"",
    ),
    (
        b"--cell\nINV\n--slew\n15\n--load\n2\n",
        0,
        b"A Z rise 33.750 16.500000\nA Z fall 17.250 14.000000\n",
        b"",
    ),
    (
        b"--cell\nINVT\n--slew\n15\n--load\n2\n",
        0,
        b"A Z rise 33.750 16.500000\nA Z fall 17.250 14.000000\n",
        b"",
    ),
    (
        b"--cell\nDFF\n--slew\n20\n--load\n2\n",
        0,
        b"CK Q rise 100.000 15.000000\nCK Q fall 110.000 14.000000\nCK QN rise 37.500 19.000000\n",
        b"",
    ),
    (
        b"--cell\nINV\n--slew\n30\n--load\n3.000001\n",
        1,
        b"",
        b"gdc: E41 outside INV A Z rise only delay load 3000001\n",
    ),
    (
        b"--cell\nINV\n--slew\n30\n--load\n4\n--outside\nextend\n",
        0,
        b"A Z rise 75.000 32.000000\nA Z fall 40.000 24.000000\n",
        b"",
    ),
    (
        b"--cell\nINV\n--outside\nedge\n--slew\n30\n--load\n4\n",
        0,
        b"A Z rise 60.000 28.000000\nA Z fall 32.000 22.000000\n",
        b"",
    ),
    (
        b"--outside\nrefuse\n--cell\nINV\n--slew\n30\n--load\n4\n",
        1,
        b"",
        b"gdc: E41 outside INV A Z rise only delay load 4000000\n",
    ),
    (
        b"--cell\nINV\n--slew\n30\n--load\n1000000\n--outside\nextend\n",
        1,
        b"",
        b"gdc: E43 past time INV A Z rise only delay\n",
    ),
    (
        b"--cell\nDFF\n--slew\n9\n--load\n4\n",
        1,
        b"",
        b"gdc: E41 outside DFF CK QN rise only delay slew 9000000\n",
    ),
    (
        b"--cell\nNAND3\n--slew\n20\n--load\n2\n",
        1,
        b"",
        b"gdc: E11 unknown cell NAND3 only\n",
    ),
];

/// A library, and the line with which its inverter is refused.
const REFUSED: [(&[u8], &[u8]); 5] = [
    (
        b"library (x) { values (\"20",
        b"gdc: E03 library syntax only token 8 line 1 open text\n",
    ),
    (
        b"library (x) { cell (",
        b"gdc: E03 library syntax only token 8 line 1 end inside\n",
    ),
    (
        b"library (x) {\n include_file (y); }",
        b"gdc: E03 library syntax only token 6 line 2 unexpected\n",
    ),
    (
        b"library (x) { cell (INV) { } }",
        b"gdc: E20 cell INV only bad unit\n",
    ),
    (
        b"library (x) { capacitive_load_unit (1, ff); lu_table_template (t) { variable_1 : input_net_transition; variable_2 : total_output_net_capacitance; index_1 (\"10, 30\"); index_2 (\"1, 3\"); } cell (INV) { pin (A) { direction : input; } pin (Z) { direction : output; timing () { related_pin : A; cell_rise (t) { values (\"20, 40\", \"30\"); } } } } }",
        b"gdc: E20 cell INV only bad table\n",
    ),
];

#[test]
fn each_edge_of_a_cell_has_its_line(rt: HostRuntime) -> Result<(), Fail> {
    for row in &ROWS {
        let plan = Plan::lookup(row.0, LIBRARY);
        expects(&rt, &rt, &plan, row.1, row.2, row.3)?;
    }
    Ok(())
}

#[test]
fn a_library_or_a_cell_is_refused(rt: HostRuntime) -> Result<(), Fail> {
    for row in &REFUSED {
        let plan = Plan::lookup(ROWS[0].0, row.0);
        expects(&rt, &rt, &plan, 1, b"", row.1)?;
    }
    Ok(())
}

#[test]
fn a_cut_list_of_arcs_is_a_write_fault(rt: HostRuntime) -> Result<(), Fail> {
    let mut plan = Plan::lookup(ROWS[0].0, LIBRARY);
    plan.failing_write = 2;
    expects(&rt, &rt, &plan, 4, b"A", b"gdc: write fault\n")?;
    let mut plan = Plan::lookup(ROWS[0].0, LIBRARY);
    plan.failing_read = 2;
    expects(&rt, &rt, &plan, 3, b"", b"gdc: read fault --lib\n")?;
    Ok(())
}
