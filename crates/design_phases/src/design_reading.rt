//! The inputs of a design, and its flat netlist.
ghost use Rattle.std.specs.Prelude.{◌≡◌, ◌<◌, ◌≤◌, ◌+◌, ◌^◌, ◌∷◌, length, Ok, IfOk, OnOk};
ghost use Rattle.edge_io.specs.Counts.{RoseBy};
ghost use Rattle.netlist_link.specs.Linked.{IsLinked};
ghost use Rattle.verdict_phases.specs.Phases.{Go, Halt, Follows, FollowsNoFile};
ghost use Rattle.design_phases.specs.DesignReading.{inputs_of, ReadsInputs, LinksInputs, ReadsDesign, ReadsDesignOf, IsInputFault};
ghost use Rattle.design_phases.specs.LibraryReading.{IsLibraryFault};
ghost use Rattle.refusals.specs.Refused.{AtReadFault, OnStop};
ghost use Rattle.design_phases.specs.UsePhase.{UsesCells};

use crate::cell_phase::model_cells;
use crate::library_reading::{Libraries, read_libraries};
use crate::link_phase::link_design;
use crate::netlist_phase::parse_netlist;
use crate::use_phase::use_cells;
use cell_models::CellSets;
use corner_set::CornerSet;
use edge_io::{Shelf, Text, TextList};
use netlist_link::{LinkedNetlist, Netlist};
use refusals::{FileKey, Refusal, read_input};
use std::alloc::Global;
use std::marker::Model;
use verdict_phases::{NoFileEnd, PhaseEnd};
use verilog_netlist::Modules;

/// What is read of a design: the modules of its netlist, the names of the cells that its top uses, and a library for each corner.
#[derive(Drop)]
pub struct Inputs<'a> {
    pub modules: Modules<'a>,
    pub used: TextList,
    pub libraries: Libraries,
}

/// A flat netlist, and the cells with which it is linked.
#[derive(Drop)]
pub struct Design<C: CornerSet> {
    linked: LinkedNetlist<C>,
}

impl<C: CornerSet> Model for Design<C> {
    ghost use Rattle.design_phases.specs.DesignReading.{LinkedDesign};

    ghost Value = { LinkedDesign };

    ghost view = { λ design. record { netlist = design.linked.netlist; cells = design.linked.cells } };
}

impl<C: CornerSet> Design<C> {
    /// The netlist with its cells.
    pub fn linked(&self) -> &LinkedNetlist<C>
        ensures netlist { result.now.netlist ≡ self.now.netlist }
        ensures cells { result.now.cells ≡ self.now.cells }
    {
        &self.linked
    }

    /// The netlist.
    pub fn netlist(&self) -> &Netlist
        ensures netlist { result.now ≡ self.now.netlist }
        ensures linked { IsLinked self.now.cells self.now.netlist }
    {
        &self.linked.netlist
    }

    /// The cells.
    pub fn cells(&self) -> &CellSets<C>
        ensures { result.now ≡ self.now.cells }
    {
        &self.linked.cells
    }

    /// Takes the design apart into its netlist and its cells.
    pub fn into_parts(self) -> (Netlist, CellSets<C>)
        ensures netlist { result.0 ≡ self.netlist }
        ensures cells { result.1 ≡ self.cells }
        ensures linked { IsLinked result.1 result.0 }
    {
        let Design { linked } = self;
        (linked.netlist, linked.cells)
    }
}

/// Reads the modules of the bytes of a netlist, then the cells that the module of this name uses, and then the libraries of all corners.
#[tactic(auto, using(crate::specs::DesignReading::at_grammar, crate::specs::DesignReading::at_uses, crate::specs::DesignReading::at_libraries, crate::specs::DesignReading::with_inputs, crate::proofs::LibraryLemmas::libraries_counted))]
pub fn read_inputs<'a, C: CornerSet, H: Shelf>(
    alloc: Global,
    shelf: &mut H,
    bytes: &'a [u8],
    top: &Text,
    libraries: &TextList,
) -> Result<Inputs<'a>, PhaseEnd<Refusal, FileKey>>
    requires bytes { length bytes.now < 2 ^ 30 }
    requires libraries { length libraries.now ≡ C.COUNT }
    ensures ok { IfOk result (λ inputs. ReadsInputs (H.held shelf.old) C.COUNT bytes.now top.now libraries.now (Go (inputs_of inputs))) }
    ensures stops { OnStop result (λ why. ReadsInputs (H.held shelf.old) C.COUNT bytes.now top.now libraries.now (Halt why)) }
    ensures uses { IfOk result (λ inputs. UsesCells inputs.modules top.now (Ok inputs.used)) }
    ensures counted { IfOk result (λ inputs. length inputs.libraries ≡ C.COUNT) }
    ensures fault { AtReadFault result (IsLibraryFault (H.held shelf.old) C.COUNT libraries.now (H.faults shelf.old) (H.faults shelf.new)
        (H.opens shelf.old) (H.opens shelf.new)) }
    ensures later { H.faults shelf.old ≤ H.faults shelf.new }
    ensures opens { OnOk result (RoseBy C.COUNT (H.opens shelf.old) (H.opens shelf.new)) }
    ensures held { H.held shelf.new ≡ H.held shelf.old }
{
    let modules = parse_netlist(alloc, bytes)?;
    let used = use_cells(alloc, &modules, top)?;
    let libraries = read_libraries::<C, H>(alloc, shelf, libraries)?;
    Ok(Inputs {
        modules,
        used,
        libraries,
    })
}

/// Makes the models of the cells that are used, and then the flat netlist.
#[tactic(auto, using(crate::specs::DesignReading::at_models, crate::specs::DesignReading::at_link, crate::specs::DesignReading::with_netlist, crate::proofs::CellLemmas::used_differ, crate::proofs::CellLemmas::have_cells))]
pub fn link_inputs<C: CornerSet>(
    alloc: Global,
    inputs: &Inputs<'_>,
    top: &Text,
) -> Result<Design<C>, NoFileEnd<Refusal>>
    requires uses { UsesCells inputs.now.modules top.now (Ok inputs.now.used) }
    requires libraries { length inputs.now.libraries ≡ C.COUNT }
    ensures follows { FollowsNoFile (LinksInputs (inputs_of inputs.now) top.now) result }
{
    let cells = model_cells::<C>(alloc, &inputs.libraries, &inputs.used)?;
    let netlist = link_design(alloc, &inputs.modules, top, &cells)?;
    Ok(Design {
        linked: LinkedNetlist { netlist, cells },
    })
}

// The design of the bytes of a netlist: its inputs are read, and then they are linked.
fn design_of<C: CornerSet, H: Shelf>(
    alloc: Global,
    shelf: &mut H,
    bytes: &[u8],
    top: &Text,
    libraries: &TextList,
) -> Result<Design<C>, PhaseEnd<Refusal, FileKey>>
    requires bytes { length bytes.now < 2 ^ 30 }
    requires libraries { length libraries.now ≡ C.COUNT }
    ensures follows { Follows (ReadsDesignOf (H.held shelf.old) C.COUNT bytes.now top.now libraries.now) result }
    ensures fault { AtReadFault result (IsLibraryFault (H.held shelf.old) C.COUNT libraries.now (H.faults shelf.old) (H.faults shelf.new)
        (H.opens shelf.old) (H.opens shelf.new)) }
    ensures later { H.faults shelf.old ≤ H.faults shelf.new }
    ensures opens { OnOk result (RoseBy C.COUNT (H.opens shelf.old) (H.opens shelf.new)) }
    ensures held { H.held shelf.new ≡ H.held shelf.old }
{
    let inputs = read_inputs::<C, H>(alloc, shelf, bytes, top, libraries)?;
    let design = link_inputs::<C>(alloc, &inputs, top)?;
    Ok(design)
}

/// Reads the netlist of that name, the cells that the module of this name uses and the libraries of all corners, in this order, and
/// makes the flat netlist of them.
#[tactic(auto, using(crate::specs::DesignReading::at_netlist))]
pub fn read_design<C: CornerSet, H: Shelf>(
    alloc: Global,
    shelf: &mut H,
    netlist: &Text,
    top: &Text,
    libraries: &TextList,
) -> Result<Design<C>, PhaseEnd<Refusal, FileKey>>
    requires { length libraries.now ≡ C.COUNT }
    ensures follows { Follows (ReadsDesign (H.held shelf.old) C.COUNT netlist.now top.now libraries.now) result }
    ensures fault { AtReadFault result (IsInputFault (H.held shelf.old) C.COUNT (netlist.now ∷ libraries.now) (H.faults shelf.old)
        (H.faults shelf.new) (H.opens shelf.old) (H.opens shelf.new)) }
    ensures later { H.faults shelf.old ≤ H.faults shelf.new }
    ensures opens { OnOk result (RoseBy (C.COUNT + 1) (H.opens shelf.old) (H.opens shelf.new)) }
    ensures held { H.held shelf.new ≡ H.held shelf.old }
{
    let text = read_input(alloc, shelf, netlist, FileKey::Netlist)?;
    let design = design_of::<C, H>(alloc, shelf, text.bytes(), top, libraries)?;
    Ok(design)
}
