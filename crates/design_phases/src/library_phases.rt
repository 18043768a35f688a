//! The phases that read a Liberty library: its grammar, and the timing model of a cell of it.
ghost use Rattle.std.specs.Prelude.{◌<◌, ◌^◌, length, Ok, Err, IfOk};
ghost use Rattle.liberty_groups.specs.Tables.{tree_of};
ghost use Rattle.verdict_phases.specs.Phases.{FollowsNoFile};
ghost use Rattle.design_phases.specs.LibraryPhases.{ParsesLibrary, ModelsCell};
ghost use Rattle.refusals.specs.Refused.{OnRefusal};

use edge_io::Text;
use liberty_groups::{ParseEnd, parse};
use refusals::Refusal;
use std::alloc::Global;
use timing_arcs::{Cell, CellFault, Library};
use verdict_phases::NoFileEnd;

/// Reads the grammar of the Liberty file of a corner, and makes the index of the library.
#[tactic(auto, using(crate::specs::LibraryPhases::is_library, crate::specs::LibraryPhases::is_no_library))]
pub fn parse_library(
    alloc: Global,
    corner: usize,
    bytes: &[u8],
) -> Result<Library, NoFileEnd<Refusal>>
    requires { length bytes.now < 2 ^ 32 }
    ensures ok { IfOk result (λ library. ParsesLibrary corner bytes.now (Ok (tree_of library))) }
    ensures refused { OnRefusal result (λ refusal. ParsesLibrary corner bytes.now (Err refusal)) }
{
    match parse(alloc, bytes) {
        Ok(tree) => {
            let library = Library::of(alloc, tree)?;
            Ok(library)
        }
        Err(ParseEnd::Syntax(fault)) => Err(NoFileEnd::Refused(Refusal::LibrarySyntax {
            corner,
            token: fault.token,
            line: fault.line,
            cause: fault.cause,
        })),
        Err(ParseEnd::OutOfMemory) => Err(NoFileEnd::OutOfMemory),
    }
}

/// The timing model of the cell of a name in the library of a corner.
#[tactic(auto, using(crate::specs::LibraryPhases::has_model, crate::specs::LibraryPhases::no_cell, crate::specs::LibraryPhases::no_model))]
pub fn model_cell(
    alloc: Global,
    corner: usize,
    library: &Library,
    name: &Text,
) -> Result<Cell, NoFileEnd<Refusal>>
    ensures follows { FollowsNoFile (ModelsCell corner (tree_of library.now) name.now) result }
{
    match library.build_cell(alloc, name) {
        Ok(cell) => Ok(cell),
        Err(CellFault::OutOfMemory) => Err(NoFileEnd::OutOfMemory),
        Err(CellFault::NoSuchCell) => {
            let cell = Text::from_bytes(alloc, name.bytes())?;
            Err(NoFileEnd::Refused(Refusal::UnknownCell { cell, corner }))
        }
        Err(fault) => {
            let cell = Text::from_bytes(alloc, name.bytes())?;
            Err(NoFileEnd::Refused(Refusal::CellFault {
                cell,
                corner,
                fault,
            }))
        }
    }
}
