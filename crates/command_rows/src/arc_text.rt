//! The lines of a cell's arcs.
ghost use Rattle.std.specs.Prelude.{◌≡◌, ◌≤◌, ◌^◌, ◌∷◌, ◌++◌, [], codes, take, unsigned_abs, flat_map};
ghost use Rattle.delay_units.specs.Printing.{signed_fixed_text, atto_text};
ghost use Rattle.edge_io.specs.Writing.{Writes};
ghost use Rattle.refusals.specs.RefusalLine.{edge_text};
ghost use Rattle.command_rows.specs.ArcTexts.{names_text, times_text, arc_line, arcs_text};

use crate::arc_rows::{ArcRow, ArcRows};
use delay_units::{Femto, Text32, write_atto, write_femto};
use edge_io::{Failed, Sink, write_5};
use refusals::edge_word;

// Writes the names of an arc's pins, and its edge.
fn write_names<O: Sink>(row: &ArcRow, out: &mut O) -> Result<(), Failed>
    ensures writes { Writes (names_text row.now) (O.written out.old) (O.written out.new) (O.faults out.old) (O.faults out.new) result }
{
    write_5(
        out,
        row.from.bytes(),
        b" ",
        row.to.bytes(),
        b" ",
        edge_word(&row.edge),
    )
}

// Writes the delay of an edge with three decimals of a picosecond, and its transition with six.
fn write_times<O: Sink>(row: &ArcRow, out: &mut O) -> Result<(), Failed>
    ensures writes { Writes (times_text row.now) (O.written out.old) (O.written out.new) (O.faults out.old) (O.faults out.new) result }
{
    let mut delay = Text32::new();
    write_femto(Femto(row.delay as i128), &mut delay);
    let mut slew = Text32::new();
    write_atto(row.slew, &mut slew);
    write_5(out, b" ", delay.as_bytes(), b" ", slew.as_bytes(), b"\n")
}

// Writes the line of an edge of an arc.
fn write_arc<O: Sink>(row: &ArcRow, out: &mut O) -> Result<(), Failed>
    ensures writes { Writes (arc_line row.now) (O.written out.old) (O.written out.new) (O.faults out.old) (O.faults out.new) result }
{
    write_names(row, out)?;
    write_times(row, out)?;
    Ok(())
}

/// Writes the lines of a cell's arcs. It takes no memory.
pub fn write_arcs<O: Sink>(rows: &ArcRows, out: &mut O) -> Result<(), Failed>
    ensures writes { Writes (arcs_text rows.now) (O.written out.old) (O.written out.new) (O.faults out.old) (O.faults out.new) result }
{
    for row in rows.as_slice() {
        write_arc(row, out)?;
    }
    Ok(())
}
