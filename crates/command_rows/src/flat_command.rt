//! The command `flat`: the flat netlist of a design.
ghost use Rattle.std.specs.Prelude.{◌≡◌, [], ◌∷◌, IfOk, OnOk};
ghost use Rattle.edge_io.specs.Counts.{RoseBy};
ghost use Rattle.verdict_phases.specs.Phases.{Follows};
ghost use Rattle.design_phases.specs.DesignReading.{IsInputFault};
ghost use Rattle.refusals.specs.Refused.{AtReadFault};
ghost use Rattle.command_rows.specs.CommandRows.{FlatGives};

use corner_set::Single;
use design_phases::{Design, read_design};
use edge_io::{OutOfMemory, Shelf, Text, TextList};
use refusals::{FileKey, Refusal};
use std::alloc::Global;
use verdict_phases::PhaseEnd;

// A list of one name.
fn list_of(alloc: Global, name: &Text) -> Result<TextList, OutOfMemory>
    ensures { IfOk result (λ names. names ≡ name.now ∷ []) }
{
    let mut names = TextList::new(alloc);
    let copy = Text::from_bytes(alloc, name.bytes())?;
    names.push(copy)?;
    Ok(names)
}

/// The flat netlist of the design of the module of this name, in the netlist of that file, with the cells that it uses of the library
/// of that file.
pub fn flat<H: Shelf>(
    alloc: Global,
    shelf: &mut H,
    netlist: &Text,
    top: &Text,
    library: &Text,
) -> Result<Design<Single>, PhaseEnd<Refusal, FileKey>>
    ensures follows { Follows (FlatGives (H.held shelf.old) netlist.now top.now library.now) result }
    ensures fault { AtReadFault result (IsInputFault (H.held shelf.old) 1 (netlist.now ∷ library.now ∷ []) (H.faults shelf.old)
        (H.faults shelf.new) (H.opens shelf.old) (H.opens shelf.new)) }
    ensures opens { OnOk result (RoseBy 2 (H.opens shelf.old) (H.opens shelf.new)) }
{
    let libraries = list_of(alloc, library)?;
    let design = read_design::<Single, H>(alloc, shelf, netlist, top, &libraries)?;
    Ok(design)
}
