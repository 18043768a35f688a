//! `calc` with a library for each corner. The expected values are worked by hand: the cell has fixed delays in each library, and 100 ohm
//! lead to a load of 1 fF and a capacitance of 1, 2 or 3 fF.
use super::{Plan, expects, expects_sdf};
use std::test::Fail;
use worked_files::INVERTER;

/// A library of an inverter at the corner `min`.
const MIN: &[u8] = b"library (L) {
  time_unit : \"1ps\";
  capacitive_load_unit (1, ff);
  cell (INV) {
    pin (A) { direction : input; capacitance : 1; }
    pin (Z) { direction : output;
      timing () { related_pin : \"A\"; timing_sense : negative_unate;
        cell_rise (scalar) { values (\"10\"); } cell_fall (scalar) { values (\"11\"); }
        rise_transition (scalar) { values (\"5\"); } fall_transition (scalar) { values (\"5\"); } } } } }
";

/// The same of the corner `typ`.
const TYP: &[u8] = b"library (L) {
  time_unit : \"1ps\";
  capacitive_load_unit (1, ff);
  cell (INV) {
    pin (A) { direction : input; capacitance : 1; }
    pin (Z) { direction : output;
      timing () { related_pin : \"A\"; timing_sense : negative_unate;
        cell_rise (scalar) { values (\"20\"); } cell_fall (scalar) { values (\"21\"); }
        rise_transition (scalar) { values (\"5\"); } fall_transition (scalar) { values (\"5\"); } } } } }
";

/// The same of the corner `max`.
const MAX: &[u8] = b"library (L) {
  time_unit : \"1ps\";
  capacitive_load_unit (1, ff);
  cell (INV) {
    pin (A) { direction : input; capacitance : 1; }
    pin (Z) { direction : output;
      timing () { related_pin : \"A\"; timing_sense : negative_unate;
        cell_rise (scalar) { values (\"30\"); } cell_fall (scalar) { values (\"31\"); }
        rise_transition (scalar) { values (\"5\"); } fall_transition (scalar) { values (\"5\"); } } } } }
";

/// One whose inverter has no timing.
const BARE: &[u8] = b"library (L) {
  time_unit : \"1ps\";
  capacitive_load_unit (1, ff);
  cell (INV) {
    pin (A) { direction : input; capacitance : 1; }
    pin (Z) { direction : output;
      } } }
";

/// One whose timing is from a pin that there is not.
const STRAY: &[u8] = b"library (L) {
  time_unit : \"1ps\";
  capacitive_load_unit (1, ff);
  cell (INV) {
    pin (A) { direction : input; capacitance : 1; }
    pin (Z) { direction : output;
      timing () { related_pin : \"B\"; timing_sense : negative_unate;
        cell_rise (scalar) { values (\"20\"); } cell_fall (scalar) { values (\"21\"); }
        rise_transition (scalar) { values (\"5\"); } fall_transition (scalar) { values (\"5\"); } } } } }
";

/// One that goes on where it has to end.
const BROKEN: &[u8] = b"library (L) {
  time_unit : \"1ps\";
  capacitive_load_unit (1, ff);
  cell (INV) {
    pin (A) { direction : input; capacitance : 1; }
    pin (Z) { direction : output;
    } } cell (INV } } }
";

/// The parasitics of the inverter, of which one is a triple.
const SPEF: &[u8] = b"*SPEF \"IEEE 1481-1998\"
*DIVIDER /
*DELIMITER :
*C_UNIT 1 FF
*R_UNIT 1 OHM
*D_NET a 0.5
*CONN
*P a I
*I u1:A I
*CAP
1 u1:A 1:2:3
*RES
1 a u1:A 100
*END
*D_NET z 2
*CONN
*I u1:Z O
*P z O
*CAP
1 z 2
*END
";

/// The delays of the three corners, side by side, behind the head of the text.
const WRITTEN: &[u8] = b"(DELAY
(ABSOLUTE
(INTERCONNECT a u1/A (0.200:0.300:0.400))
(INTERCONNECT u1/Z z (0.000:0.000:0.000))
)
)
)
(CELL
(CELLTYPE \"INV\")
(INSTANCE u1)
(DELAY
(ABSOLUTE
(IOPATH A Z (10.000:20.000:30.000) (11.000:21.000:31.000))
)
)
)
)
";

#[test]
fn each_corner_has_its_delays(rt: HostRuntime) -> Result<(), Fail> {
    let plan = Plan::corners(b"--input-slew\n20\n", INVERTER, SPEF, [MIN, TYP, MAX]);
    expects_sdf(&rt, &rt, &plan, WRITTEN)?;
    Ok(())
}

/// Libraries of which one has another shape or cannot be read, and the line of the refusal.
const REFUSED: [([&[u8]; 3], &[u8]); 4] = [
    ([MIN, TYP, BARE], b"gdc: E21 corner shape INV max entry 3\n"),
    ([MIN, BARE, MAX], b"gdc: E21 corner shape INV typ entry 3\n"),
    (
        [MIN, STRAY, MAX],
        b"gdc: E20 cell INV typ unknown related pin\n",
    ),
    (
        [MIN, TYP, BROKEN],
        b"gdc: E03 library syntax max token 50 line 7 unexpected\n",
    ),
];

#[test]
fn a_library_is_refused_at_its_corner(rt: HostRuntime) -> Result<(), Fail> {
    for (libraries, line) in REFUSED {
        let plan = Plan::corners(b"--input-slew\n20\n", INVERTER, SPEF, libraries);
        expects(&rt, &rt, &plan, 1, b"", line)?;
    }
    Ok(())
}

/// Words with a fault, and its line.
const FAULTY: [(&[u8], &[u8]); 4] = [
    (
        b"calc\n--netlist\na.v\n--top\ntop\n--spef\na.spef\n--input-slew\n20\n--lib-min\nmin.lib\n--lib-typ\ntyp.lib\n",
        b"gdc: usage: missing --lib-max\n",
    ),
    (
        b"calc\n--netlist\na.v\n--top\ntop\n--spef\na.spef\n--input-slew\n20\n--lib\na.lib\n--lib-max\nmax.lib\n",
        b"gdc: usage: mixed --lib-max\n",
    ),
    (
        b"calc\n--triple\nmin\n--lib-typ\ntyp.lib\n",
        b"gdc: usage: mixed --lib-typ\n",
    ),
    (
        b"flat\n--lib-min\nmin.lib\n",
        b"gdc: usage at word 2: unknown word\n",
    ),
];

#[test]
fn libraries_of_corners_stand_together(rt: HostRuntime) -> Result<(), Fail> {
    for (words, line) in FAULTY {
        expects(&rt, &rt, &Plan::of(words, SPEF), 2, b"", line)?;
    }
    Ok(())
}

/// The libraries are read in the order of the corners, behind the netlist.
#[test]
fn a_fault_is_told_by_the_key_of_its_corner(rt: HostRuntime) -> Result<(), Fail> {
    let mut plan = Plan::corners(
        b"--input-slew\n20\n",
        INVERTER,
        SPEF,
        [b"library (x) { }"; 3],
    );
    plan.words =
        b"calc\n--netlist\na.v\n--top\ntop\n--spef\nb.spef\n--lib-max\nb.lib\n--lib-typ\nc.lib\n--lib-min\nmin.lib\n";
    expects(&rt, &rt, &plan, 3, b"", b"gdc: read fault --lib-typ\n")?;
    let plan = Plan::corners(
        b"--input-slew\n20\n",
        INVERTER,
        SPEF,
        [b"library (x) { }"; 3],
    );
    expects(&rt, &rt, &plan, 1, b"", b"gdc: E11 unknown cell INV min\n")?;
    Ok(())
}
