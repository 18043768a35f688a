//! Worked tables: slews of 10 and 30 ps, loads of 1 and 3 fF. By hand, at 20 ps and 2 fF each of the four values counts a quarter.
ghost use Rattle.std.specs.Prelude.{◌≡◌, ◌<◌, ◌≤◌, ◌≤ℤ◌, pos, All};
ghost use Rattle.nldm_lookup.specs.Axes.{most};
ghost use Rattle.nldm_lookup.specs.Tables.{IsSmall};

use corner_set::Beyond;
use delay_units::{Atto, Farads};
use edge_io::Steps;
use nldm_lookup::{Axis, Grain, LookupEnd, Order, Table, Which};
use std::alloc::Global;
use std::marker::Brand;
use std::sync::ledger::{Blank, Ledger};

/// The values of a rise in attoseconds, the slew first.
const RISE: [i64; 4] = [20_000_000, 40_000_000, 30_000_000, 60_000_000];

/// The same values, the load first.
const RISE_BY_LOAD: [i64; 4] = [20_000_000, 30_000_000, 40_000_000, 60_000_000];

/// Values that grow fast with the load.
const STEEP: [i64; 4] = [1_000_000, 40_000_000, 2_000_000, 60_000_000];

/// A table of slews of 10 and 30 ps and loads of 1 and 3 fF.
fn table(alloc: Global, order: Order, values: &[i64]) -> Option<Table>
    requires { All IsSmall values.now }
{
    let slew = Axis::new(alloc, &[10_000_000, 30_000_000]).ok()?;
    let load = Axis::new(alloc, &[1_000_000, 3_000_000]).ok()?;
    Table::new(alloc, slew, load, order, values).ok()
}

/// What a table says, with a counter of its own.
fn looked_by<L: Ledger>(
    rt: &HostRuntime,
    table: &Table,
    slew: i64,
    load: u64,
    grain: Grain,
    beyond: Beyond,
    blank: Blank,
) -> Result<i64, LookupEnd>
    requires not_negative { pos 0 ≤ℤ slew }
    requires small { slew ≤ℤ pos most }
    requires name { blank.name ≡ L.name }
    requires parts { blank.parts ≡ L.parts }
    requires some_part { 0 < blank.parts }
{
    let mut steps = Steps::<L>::new(rt, blank);
    table.lookup(Atto(slew), Farads(load), grain, beyond, &mut steps)
}

/// What a table says at a slew and a load, also past its axes.
fn looked_past(
    rt: &HostRuntime,
    table: &Table,
    slew: i64,
    load: u64,
    grain: Grain,
    beyond: Beyond,
) -> Result<i64, LookupEnd>
    requires not_negative { pos 0 ≤ℤ slew }
    requires small { slew ≤ℤ pos most }
{
    looked_by::<Brand>(rt, table, slew, load, grain, beyond, Blank::new(1))
}

/// What a table says at a slew and a load within its axes, or nothing.
pub fn looked(rt: &HostRuntime, table: &Table, slew: u32, load: u64, grain: Grain) -> Option<i64> {
    looked_past(rt, table, slew as i64, load, grain, Beyond::Refuse).ok()
}

/// What a table says: the value, or 1 for a slew outside, 2 for a load outside, and 3 for a time that is too large.
fn told(rt: &HostRuntime, table: &Table, row: &Row) -> (i64, u8) {
    match looked_past(rt, table, row.0 as i64, row.1, row.2, row.3) {
        Ok(value) => (value, 0),
        Err(LookupEnd::Outside(outside)) => match outside.axis {
            Which::Slew => (0, 1),
            Which::Load => (0, 2),
        },
        Err(LookupEnd::PastTime) => (0, 3),
    }
}

/// A slew in attoseconds, a load in grains of 10^-21 F, the grain of the answer, what holds past an axis, and what is told there.
type Row = (u32, u64, Grain, Beyond, (i64, u8));

/// What the rise says.
const ROWS: [Row; 11] = [
    (
        20_000_000,
        2_000_000,
        Grain::Femto,
        Beyond::Refuse,
        (37_500, 0),
    ),
    (
        20_000_000,
        2_000_000,
        Grain::Atto,
        Beyond::Edge,
        (37_500_000, 0),
    ),
    (
        15_000_000,
        2_000_000,
        Grain::Femto,
        Beyond::Extend,
        (33_750, 0),
    ),
    // Past one axis, or both.
    (30_000_000, 3_000_001, Grain::Femto, Beyond::Refuse, (0, 2)),
    (9_999_999, 3_000_001, Grain::Femto, Beyond::Refuse, (0, 1)),
    (0, 0, Grain::Femto, Beyond::Edge, (20_000, 0)),
    (0, 0, Grain::Femto, Beyond::Extend, (7_500, 0)),
    (
        12_345_678,
        9_876_543,
        Grain::Atto,
        Beyond::Extend,
        (115_143_647, 0),
    ),
    // Up to a microsecond, and past it.
    (
        30_000_000,
        66_665_666_667,
        Grain::Femto,
        Beyond::Extend,
        (1_000_000_000, 0),
    ),
    (
        30_000_000,
        66_665_666_700,
        Grain::Femto,
        Beyond::Extend,
        (0, 3),
    ),
    // A load past a nanofarad.
    (
        10_000_000,
        1_000_000_000_001,
        Grain::Atto,
        Beyond::Extend,
        (0, 3),
    ),
];

/// What the steep table says. A delay may be negative, and a transition not.
const STEEP_ROWS: [Row; 3] = [
    (10_000_000, 0, Grain::Femto, Beyond::Edge, (1_000, 0)),
    (10_000_000, 0, Grain::Femto, Beyond::Extend, (-18_500, 0)),
    (10_000_000, 0, Grain::Atto, Beyond::Extend, (0, 0)),
];

/// The first row that a table tells otherwise.
fn first_other(rt: &HostRuntime, table: &Table, rows: &[Row]) -> Option<usize> {
    for (number, row) in rows.iter().enumerate() {
        let found = told(rt, table, row);
        if found.0 != row.4.0 || found.1 != row.4.1 {
            return Some(number);
        }
    }
    None
}

/// Whether the table of these values tells the rows.
fn are_told(rt: &HostRuntime, order: Order, values: &[i64], rows: &[Row]) -> bool
    requires { All IsSmall values.now }
{
    match table(rt.alloc(), order, values) {
        Some(table) => first_other(rt, &table, rows).is_none(),
        None => false,
    }
}

#[test]
fn worked_values(rt: HostRuntime) {
    assert!(rt; are_told(&rt, Order::SlewFirst, &RISE, &ROWS));
    assert!(rt; are_told(&rt, Order::LoadFirst, &RISE_BY_LOAD, &ROWS));
    assert!(rt; are_told(&rt, Order::SlewFirst, &STEEP, &STEEP_ROWS));
}
