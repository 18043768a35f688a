//! The rows of one file, as they are collected.
ghost use Rattle.std.specs.Prelude.{◌≡◌, ℕ, ◌<◌, [], ◌∷◌, ◌++◌, length, IfOk, IfSome, OnOk, OnErr};
ghost use Rattle.std.specs.List.{All};
ghost use Rattle.sdf_writer.specs.Bounds.{AreWithin};
ghost use Rattle.sdf_writer.specs.Names.{ExtendsNames};
ghost use Rattle.sdf_writer.specs.WireEnds.{end_name};
ghost use Rattle.sdf_writer.specs.WireRows.{IsWireKept, KeepsWire};
ghost use Rattle.sdf_writer.specs.PathRows.{IsEdge, edge_times};

use crate::ends::{WireEnd, keep_end, keep_end_again};
use crate::paths::{PathNames, Paths};
use crate::times::add_times;
use corner_set::{CornerSet, Grid};
use delay_units::Femto;
use edge_io::{OutOfMemory, Text};
use std::alloc::Global;
use std::marker::Model;
use text_table::FlatTexts;

/// The rows of one SDF file: the name of the design, a row for each wire with its delay at each
/// corner, and a row for each path through a cell with the delays of its rise and its fall. Contracts see these.
/// A name behind more than 2^32 - 1 bytes of names, of wires or of paths, is a want of memory.
#[derive(Drop)]
pub struct Rows<C: CornerSet> {
    pub(crate) design: Text,
    // the names of the ends of all wires
    pub(crate) names: FlatTexts,
    pub(crate) wires: Vec<Wire>,
    // the delays of all wires one after another, of each its corners by number
    pub(crate) delays: Vec<Femto>,
    pub(crate) paths: Paths<C>,
}

// The numbers of the names of a wire's ends.
#[derive(Drop)]
pub(crate) struct Wire {
    pub(crate) from: u32,
    pub(crate) to: u32,
}

impl<C: CornerSet> Model for Rows<C> {
    ghost use Rattle.std.specs.Prelude.{◌≡◌, ◌*◌, length};
    ghost use Rattle.std.specs.List.{All};
    ghost use Rattle.sdf_writer.specs.SdfText.{SdfRows};
    ghost use Rattle.sdf_writer.specs.Bounds.{AreWithin};

    ghost Value = { SdfRows };

    ghost use Rattle.sdf_writer.specs.WireRows.{IsWireKept, wire_rows};

    ghost view = { λ rows. record {
      design = rows.design;
      wires = wire_rows C.COUNT rows.names rows.wires.items rows.delays.items;
      paths = rows.paths;
    } };

    ghost invariant = { λ rows. (length rows.delays.items ≡ length rows.wires.items * C.COUNT) × AreWithin rows.delays.items
        × All (IsWireKept (length rows.names)) rows.wires.items };
}

impl<C: CornerSet> Rows<C> {
    /// No rows yet, of a design of that name. It takes no memory.
    pub fn new(alloc: Global, design: Text) -> Rows<C>
        ensures { result ≡ record { design = design; wires = []; paths = [] } }
    {
        Rows {
            design,
            names: FlatTexts::new(alloc),
            wires: Vec::new(alloc),
            delays: Vec::new(alloc),
            paths: Paths::new(alloc),
        }
    }

    /// Adds the row of a wire, from the pin that drives it to one that it reaches, both in the spelling
    /// of SDF. `delay` has one row, with the time at each corner, of at most 10^27 fs in size. Where
    /// memory is missing the names are dropped and the rows stay as they were.
    pub fn add_wire(
        &mut self,
        from: Text,
        to: Text,
        delay: &Grid<C, Femto>,
    ) -> Result<(), OutOfMemory>
        requires one_row { length delay.now.values ≡ C.COUNT }
        requires within { AreWithin delay.now.values }
        ensures ok { OnOk result (self.new ≡ record self.old
            { wires = self.old.wires ++ record { from = from; to = to; delay = delay.now.values } ∷ [] }) }
        ensures err { OnErr result (self.new ≡ self.old) }
    {
        let from = WireEnd::Name(from.bytes());
        let to = WireEnd::Name(to.bytes());
        self.put_wire(from, to, delay)
    }

    /// The same as [`Rows::add_wire`], by names that stay the caller's.
    pub fn put_wire(
        &mut self,
        from: WireEnd<'_>,
        to: WireEnd<'_>,
        delay: &Grid<C, Femto>,
    ) -> Result<(), OutOfMemory>
        requires one_row { length delay.now.values ≡ C.COUNT }
        requires within { AreWithin delay.now.values }
        ensures ok { OnOk result (self.new ≡ record self.old
            { wires = self.old.wires ++ record { from = end_name from.entry; to = end_name to.entry; delay = delay.now.values } ∷ [] }) }
        ensures err { OnErr result (self.new ≡ self.old) }
    {
        self.wires.reserve(1)?;
        let wire = keep_wire(&mut self.names, last_from(&self.wires), from, to)?;
        add_times(&mut self.delays, delay.as_slice())?;
        // There is room for it.
        let _ = self.wires.push(wire);
        Ok(())
    }

    /// Adds the row of a path through a cell, from one of its pins to another. `rise` and `fall` are the delays of the edges at the
    /// second pin, each of one row, with the time at each corner, of at most 10^27 fs in size, or none. Paths of one cell that are
    /// added one after another stand in one CELL of the text, so those of an instance are to be added together. The names stay the
    /// caller's. Where memory is missing the rows stay as they were.
    pub fn put_path(
        &mut self,
        names: PathNames<'_>,
        rise: Option<&Grid<C, Femto>>,
        fall: Option<&Grid<C, Femto>>,
    ) -> Result<(), OutOfMemory>
        requires rise { IsEdge C.COUNT (edge_times rise) }
        requires fall { IsEdge C.COUNT (edge_times fall) }
        ensures ok { OnOk result (self.new ≡ record self.old {
          paths = self.old.paths ++ record {
            cell = names.entry.cell.now;
            instance = names.entry.instance.now;
            from = names.entry.from.now;
            to = names.entry.to.now;
            rise = edge_times rise.entry;
            fall = edge_times fall.entry;
          } ∷ [];
        }) }
        ensures err { OnErr result (self.new ≡ self.old) }
    {
        self.paths.add(names, rise, fall)
    }
}

// The number of the name of the end that drives the last wire. Wires of one driver stand together, as a rule.
#[inline]
fn last_from(wires: &[Wire]) -> Option<u32>
    ensures { (names : ℕ) → All (IsWireKept names) wires.now → IfSome result (λ number. number < names) }
{
    match wires.last() {
        Some(wire) => Some(wire.from),
        None => None,
    }
}

// Keeps the names of a wire's ends. The first may be that of this number.
fn keep_wire(
    names: &mut FlatTexts,
    before: Option<u32>,
    from: WireEnd<'_>,
    to: WireEnd<'_>,
) -> Result<Wire, OutOfMemory>
    requires { IfSome before (λ number. number < length names.old) }
    ensures kept { IfOk result (KeepsWire names.new (end_name from.entry) (end_name to.entry)) }
    ensures names { ExtendsNames names.old names.new }
{
    let from = keep_end_again(names, before, from)?;
    let to = keep_end(names, to)?;
    Ok(Wire { from, to })
}
