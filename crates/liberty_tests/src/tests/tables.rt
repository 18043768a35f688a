//! Tables of a small library, each with its value at a slew of 15 ps and a load of 2 fF, in attoseconds, or with its fault. The expected
//! answers are another reader's of the same files.
use super::faults::word_of;
use super::lookups::looked;
use super::models::built;
use edge_io::{OutOfMemory, Text};
use nldm_lookup::Grain;
use std::alloc::Global;
use timing_arcs::CellFault;

/// The library of all of the tables, up to the delay of the one arc of its cell. Loads are told in 10 fF.
const BEFORE: &[u8] = b"library (l) { time_unit : \"1ps\"; capacitive_load_unit (10, ff);
  lu_table_template (t22) { variable_1 : input_net_transition; variable_2 : total_output_net_capacitance;
    index_1 (\"10, 30\"); index_2 (\"0.1, 0.3\"); }
  lu_table_template (t22) { }
  lu_table_template (by_load) { variable_1 : total_output_net_capacitance; variable_2 : input_net_transition;
    index_1 (\"0.1, 0.3\"); index_2 (\"10, 30\"); }
  lu_table_template (slew) { variable_1 : input_net_transition; index_1 (\"10, 30\"); }
  lu_table_template (load) { variable_1 : total_output_net_capacitance; index_1 (\"0.1, 0.3\"); }
  lu_table_template (flat) { }
  lu_table_template (third) { variable_3 : input_net_transition; }
  lu_table_template (alone) { variable_2 : input_net_transition; }
  lu_table_template (twice) { variable_1 : input_net_transition; variable_2 : input_net_transition; }
  lu_table_template (scalar) { variable_1 : unknown; }
  lu_table_template () { }
  table (named) { }
  cell (c) { pin (A) { direction : input; } pin (Z) { direction : output;
    timing () { related_pin : \"A\"; cell_rise ";

/// What stands behind the delay.
const BEHIND: &[u8] = b" rise_transition (scalar) { values (\"-0.0000001\"); } } } } }";

/// Tables with values.
const VALUES: [(&[u8], i64); 8] = [
    (b"(t22) { values (\"20, 40\", \"30, 60\"); }", 33_750_000),
    (
        b"(by_load) { values (\"20, 30\", \"40, 60\"); }",
        33_750_000,
    ),
    (b"(slew) { values (\"20, 40\"); }", 25_000_000),
    (b"(load) { values (\"20 30\"); }", 25_000_000),
    (b"(flat) { values (\"7\"); }", 7_000_000),
    (b"(scalar) { values (\"-4\"); }", -4_000_000),
    (
        b"(t22) { index_1 (\"0, 40\"); values (\"20, 40, 30, 60\"); }",
        35_625_000,
    ),
    (
        b"(t22) { values (\"1\"); values (\",20 , ,\t40,\", \"\", \"30\r,60 \"); }",
        33_750_000,
    ),
];

/// Tables with a fault.
const FAULTS: [(&[u8], &[u8]); 13] = [
    (b"(named) { values (\"1\"); }", b"template"),
    (b"() { values (\"1\"); }", b"template"),
    (b"(third) { values (\"1\"); }", b"variable"),
    (b"(alone) { values (\"1\"); }", b"variable"),
    (b"(twice) { values (\"1\"); }", b"variable"),
    (
        b"(t22) { index_1 (\"30, 10, x\"); index_2 (\"y\"); values (\"z\"); }",
        b"number",
    ),
    (
        b"(t22) { index_1 (\"30, 10\"); index_2 (\"y\"); values (\"z\"); }",
        b"axis",
    ),
    (b"(t22) { index_1 (); values (\"z\"); }", b"axis"),
    (
        b"(t22) { index_1 (\"10, 10.0000004\"); values (\"z\"); }",
        b"axis",
    ),
    (b"(t22) { index_1 (\"-10, 30\"); values (\"z\"); }", b"axis"),
    (
        b"(t22) { index_2 (\"0.1, 100001\"); values (\"z\"); }",
        b"axis",
    ),
    (b"(t22) { values (\"20, 40, 30, 1000001\"); }", b"number"),
    (b"(t22) { values (\"20, 40, 30\"); }", b"table"),
];

/// The library with this delay.
fn library_with(alloc: Global, delay: &[u8]) -> Result<Text, OutOfMemory> {
    let mut library = Text::from_bytes(alloc, BEFORE)?;
    library.push_all(delay)?;
    library.push_all(BEHIND)?;
    Ok(library)
}

/// What a delay says, or nothing where its cell has no such arc.
fn delay_of(rt: &HostRuntime, delay: &[u8]) -> Result<Option<i64>, CellFault> {
    let alloc = rt.alloc();
    let library = library_with(alloc, delay)?;
    let cell = built(alloc, library.bytes(), b"c")?;
    match cell.arcs() {
        [arc] => match &arc.rise {
            Some(rise) => Ok(looked(rt, &rise.delay, 15_000_000, 2_000_000, Grain::Atto)),
            None => Ok(None),
        },
        _ => Ok(None),
    }
}

/// The first table that says another value.
fn first_other_value(rt: &HostRuntime) -> Option<usize> {
    for (number, row) in VALUES.iter().enumerate() {
        match delay_of(rt, row.0) {
            Ok(Some(delay)) if delay == row.1 => {}
            _ => return Some(number),
        }
    }
    None
}

/// The first table with another fault.
fn first_other_fault(rt: &HostRuntime) -> Option<usize> {
    for (number, row) in FAULTS.iter().enumerate() {
        match delay_of(rt, row.0) {
            Err(fault) if word_of(fault) == row.1 => {}
            _ => return Some(number),
        }
    }
    None
}

#[test]
fn tables_are_read(rt: HostRuntime) {
    assert_eq!(rt; first_other_value(&rt), None);
    assert_eq!(rt; first_other_fault(&rt), None);
}
