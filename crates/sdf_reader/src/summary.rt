//! Tells how much the rows are.
ghost use Rattle.std.specs.Prelude.{◌≡◌, ◌+◌, ◌*◌, ◌^◌, ◌<◌, ◌≤◌, [], ◌∷◌, ◌++◌, List, ◌+ℤ◌, unsigned_abs};
ghost use Rattle.delay_units.specs.Printing.{signed_fixed_text};
ghost use Rattle.edge_io.specs.Writing.{Writes};
ghost use Rattle.sdf_reader.specs.Lines.{time_or_zero, member_list, value_members, larger, largest, counts_text, time_text, summary_text, summary_line};
ghost use Rattle.sdf_reader.specs.Sizes.{IsTimeWithin, IsRowWithin};
ghost use Rattle.sdf_reader.specs.Summaries.{IsSummaryOf};
ghost use Rattle.sdf_reader.specs.declared.rows.SdfRow.{SdfRow};

use crate::rows::{SdfRow, SdfRows, Value};
use crate::times::print_time;
use delay_units::Femto;
use edge_io::{Failed, Sink, write_4, write_all};
use itoa::Buffer;

/// The count of wires and of paths, the sum of the typical times, and the largest time of any member.
#[derive(Drop)]
pub struct Summary {
    pub wires: u64,
    pub paths: u64,
    pub sum: i128,
    pub largest: Option<i128>,
}

/// The larger of two times, or the one that is there.
fn larger(most: Option<i128>, member: Option<Femto>) -> Option<i128>
    ensures { result ≡ larger most (largest (member_list member)) }
{
    match (most, member) {
        (None, None) => None,
        (Some(most), None) => Some(most),
        (None, Some(time)) => Some(time.0),
        (Some(most), Some(time)) => Some(most.max(time.0)),
    }
}

/// The largest of a time and the members of a value.
#[tactic(auto, using(crate::proofs::SumLemmas::larger_of_members))]
fn larger_of(most: Option<i128>, value: &Value) -> Option<i128>
    ensures { result ≡ larger most (largest (value_members value.now)) }
{
    larger(larger(larger(most, value.min), value.typ), value.max)
}

/// The sum with the typical time of a value, if it has one.
fn added(sum: i128, value: &Value) -> i128
    requires sum { unsigned_abs sum ≤ 2 ^ 34 * 10 ^ 27 }
    requires within { IsTimeWithin value.now.typ }
    ensures { result ≡ sum +ℤ time_or_zero value.now.typ }
{
    match value.typ {
        Some(time) => sum + time.0,
        None => sum,
    }
}

/// The summary with one more row: a wire adds its rise, a path its rise and its fall.
fn with_row(summary: &Summary, row: &SdfRow) -> Summary
    requires counts { summary.now.wires + summary.now.paths < 2 ^ 32 }
    requires sum { unsigned_abs summary.now.sum ≤ 2 ^ 33 * 10 ^ 27 }
    requires within { IsRowWithin row.now }
    ensures { (rows : List SdfRow) → IsSummaryOf rows summary.now → IsSummaryOf (rows ++ row.now ∷ []) result }
{
    match row {
        SdfRow::Wire {
            from: _,
            to: _,
            rise,
            fall,
        } => Summary {
            wires: summary.wires + 1,
            paths: summary.paths,
            sum: added(summary.sum, rise),
            largest: larger_of(larger_of(summary.largest, rise), fall),
        },
        SdfRow::Path {
            cell: _,
            instance: _,
            from: _,
            to: _,
            rise,
            fall,
        } => Summary {
            wires: summary.wires,
            paths: summary.paths + 1,
            sum: added(added(summary.sum, rise), fall),
            largest: larger_of(larger_of(summary.largest, rise), fall),
        },
    }
}

/// The summary of the rows.
fn summary_of(rows: &SdfRows) -> Summary
    ensures { IsSummaryOf rows.now result }
{
    let mut summary = Summary {
        wires: 0,
        paths: 0,
        sum: 0,
        largest: None,
    };
    for row in &rows.rows {
        summary = with_row(&summary, row);
    }
    summary
}

/// The counts, with a word before each.
fn print_counts<O: Sink>(wires: u64, paths: u64, sink: &mut O) -> Result<(), Failed>
    ensures writes { Writes (counts_text wires paths) (O.written sink.old) (O.written sink.new) (O.faults sink.old)
        (O.faults sink.new) result }
{
    write_4(
        sink,
        b"wires ",
        Buffer::new().format(wires).as_bytes(),
        b" paths ",
        Buffer::new().format(paths).as_bytes(),
    )
}

/// A time, or `-`.
fn print_largest<O: Sink>(largest: Option<i128>, sink: &mut O) -> Result<(), Failed>
    ensures writes { Writes (time_text largest) (O.written sink.old) (O.written sink.new) (O.faults sink.old) (O.faults sink.new) result }
{
    match largest {
        None => write_all(sink, b"-"),
        Some(time) => print_time(time, sink),
    }
}

/// The sum, with all its digits.
fn print_sum<O: Sink>(summary: &Summary, sink: &mut O) -> Result<(), Failed>
    ensures writes { Writes (signed_fixed_text 3 summary.now.sum) (O.written sink.old) (O.written sink.new) (O.faults sink.old)
        (O.faults sink.new) result }
{
    print_time(summary.sum, sink)
}

/// The line of a summary.
fn print_line<O: Sink>(summary: &Summary, sink: &mut O) -> Result<(), Failed>
    ensures writes { Writes (summary_text summary.now.wires summary.now.paths summary.now.sum summary.now.largest) (O.written sink.old)
        (O.written sink.new) (O.faults sink.old) (O.faults sink.new) result }
{
    print_counts(summary.wires, summary.paths, sink)?;
    write_all(sink, b" sum ")?;
    print_sum(summary, sink)?;
    write_all(sink, b" largest ")?;
    print_largest(summary.largest, sink)?;
    write_all(sink, b"\n")?;
    Ok(())
}

/// Writes the line `wires W paths P sum S largest L`: how many wires and paths there are; the sum, in picoseconds with three
/// decimals and all its digits, of the typical time of every wire's rise and every path's rise and fall; and the largest member
/// of any value, or `-` where there is none. It takes no memory.
pub fn print_summary<O: Sink>(rows: &SdfRows, sink: &mut O) -> Result<(), Failed>
    ensures writes { Writes (summary_line rows.now) (O.written sink.old) (O.written sink.new) (O.faults sink.old)
        (O.faults sink.new) result }
{
    print_line(&summary_of(rows), sink)
}
