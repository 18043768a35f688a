//! A netlist with the pins of its cells as SDF spells them (IEEE 1497-2001).
ghost use Rattle.std.specs.Prelude.{◌≡◌, ◌<◌, length, map, IfOk};
ghost use Rattle.cell_models.specs.NamedSets.{set_cells};
ghost use Rattle.netlist_link.specs.FlatPins.{pins_of};
ghost use Rattle.net_delays.specs.NetTimes.{Fits};
ghost use Rattle.annotation_rows.specs.SdfEnds.{pin_part, spelled_pins};

use cell_models::{CellSet, CellSets};
use corner_set::{CornerSet, first_corner};
use edge_io::lists::push;
use edge_io::{OutOfMemory, TextList};
use name_table::escape_sdf;
use net_delays::NetDelays;
use netlist_link::LinkedNetlist;
use std::alloc::Global;

/// A netlist with its cells, the loads and Elmore sums of its nets, and the names of the pins of each cell, each spelled once as one part
/// of a path.
#[derive(Drop)]
pub(crate) struct SpelledNetlist<'a, C: CornerSet> {
    pub(crate) linked: &'a LinkedNetlist<C>,
    pub(crate) nets: &'a NetDelays<C>,
    pub(crate) pins: Vec<TextList>,
    pub(crate) ghost fits: { Fits linked.now.netlist nets.now },
    pub(crate) ghost spelled: { pins.items ≡ map spelled_pins (set_cells linked.now.cells) },
}

// The pins of a cell as SDF spells them.
fn spell_pins<C: CornerSet>(alloc: Global, cell: &CellSet<C>) -> Result<TextList, OutOfMemory>
    ensures { IfOk result (λ pins. pins ≡ spelled_pins cell.now) }
{
    let mut pins = TextList::new(alloc);
    for pin in 0..cell.pin_count() {
        let named = cell.pin(pin, first_corner::<C>());
        let spelled = escape_sdf(alloc, named.name.bytes())?;
        pins.push(spelled)?;
    }
    Ok(pins)
}

/// The pins of all cells as SDF spells them.
pub(crate) fn spell_all<C: CornerSet>(
    alloc: Global,
    cells: &CellSets<C>,
) -> Result<Vec<TextList>, OutOfMemory>
    ensures { IfOk result (λ pins. pins.items ≡ map spelled_pins (set_cells cells.now)) }
{
    let mut pins = Vec::with_capacity(alloc, cells.len())?;
    for cell in 0..cells.len() {
        let own = spell_pins(alloc, cells.set(cell))?;
        push(&mut pins, own)?;
    }
    Ok(pins)
}

impl<'a, C: CornerSet> SpelledNetlist<'a, C> {
    /// The name of a pin of a cell as one part of a path.
    #[tactic(auto, using(crate::proofs::SpelledPins::cell_kept, crate::proofs::SpelledPins::pin_kept, crate::proofs::SpelledPins::pin_is))]
    pub(crate) fn pin(&self, cell: usize, pin: usize) -> &[u8]
        requires cell { cell < length self.now.linked.now.cells }
        requires pin { pin < length (pins_of self.now.linked.now.cells cell) }
        ensures { result.now ≡ pin_part (pins_of self.now.linked.now.cells cell) pin }
    {
        self.pins[cell].as_slice()[pin].bytes()
    }
}
