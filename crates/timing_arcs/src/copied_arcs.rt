//! The arcs to pins, of which those of one `pin` group have the same.
ghost use Rattle.std.specs.Prelude.{◌≡◌, ◌<◌, ◌++◌, ◌-◌, length, All, Some, IfOk, OnOk, IfErr, slice_get, flat_map, map, drop};
ghost use Rattle.timing_arcs.specs.PinModel.{PinEntry};
ghost use Rattle.timing_arcs.specs.DelayGroups.{delays_in, arcs_in};
ghost use Rattle.timing_arcs.specs.LibraryBasis.{AreAdded, IsNoMemory};
ghost use Rattle.timing_arcs.specs.CopiedArcs.{led_to, AreArcsTo};
ghost use Rattle.timing_arcs.specs.CellReading.{entries_of, library_of};
ghost use Rattle.timing_arcs.specs.CellFaults.{delay_questions, IsRefusal};

use crate::cell_reading::CellReading;
use crate::delay_groups::{add_pin_arcs, copied, put};
use cell_models::Arc;
use edge_io::OutOfMemory;
use liberty_tables::CellFault;
use std::alloc::Global;

// The same arc, to another pin.
fn led_to(arc: &Arc, to: usize) -> Result<Arc, OutOfMemory>
    ensures { IfOk result (λ copy. copy ≡ led_to to arc.now) }
{
    Ok(Arc {
        from: arc.from,
        to,
        kind: arc.kind,
        rise: copied(&arc.rise)?,
        fall: copied(&arc.fall)?,
    })
}

// The arcs from a place on, once more, to another pin.
fn copy_arcs(start: usize, to: usize, arcs: &mut Vec<Arc>) -> Result<(), CellFault>
    ensures arcs { OnOk result (arcs.new.items ≡ arcs.old.items ++ map (led_to to) (drop start arcs.old.items)) }
    ensures memory { IfErr result IsNoMemory }
{
    for place in start..arcs.len() {
        let arc = led_to(&arcs[place], to)?;
        put(arcs, arc)?;
    }
    Ok(())
}

/// The arcs to the pin at a place, where those to the pin before stand from `start` on. A name that has the group of the name before has
/// the same
/// arcs: the group is read once for all of its names.
pub(crate) fn add_next_arcs(
    alloc: Global,
    cell: &CellReading<'_>,
    to: usize,
    start: usize,
    arcs: &mut Vec<Arc>,
) -> Result<(), CellFault>
    requires to { to < length cell.now.pins }
    requires before { 0 < to → (entry : PinEntry)
        → slice_get (entries_of cell.now) (to - 1) ≡ Some entry
        → AreArcsTo (library_of cell.now) cell.now.names (entries_of cell.now) entry
        (drop start arcs.old.items) }
    ensures ok { (entry : PinEntry) → slice_get (entries_of cell.now) to ≡ Some entry
        → OnOk result (AreAdded (library_of cell.now) cell.now.names
        (flat_map (arcs_in (entries_of cell.now)) (delays_in entry))
        (flat_map (delay_questions (entries_of cell.now)) (delays_in entry))
        arcs.old.items arcs.new.items) }
    ensures refused { (entry : PinEntry) → slice_get (entries_of cell.now) to ≡ Some entry
        → IfErr result (IsRefusal (library_of cell.now)
        (flat_map (delay_questions (entries_of cell.now)) (delays_in entry))) }
{
    if cell.repeats(to) {
        copy_arcs(start, to, arcs)
    } else {
        add_pin_arcs(alloc, cell, to, arcs)
    }
}
