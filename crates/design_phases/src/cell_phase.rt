//! The phase that makes the models of the cells that a design uses.
ghost use Rattle.std.specs.Prelude.{◌≡◌, length, map, IfOk};
ghost use Rattle.liberty_groups.specs.Tables.{tree_of};
ghost use Rattle.name_table.specs.Names.{AreDistinct};
ghost use Rattle.verdict_phases.specs.Phases.{FollowsNoFile};
ghost use Rattle.design_phases.specs.CellPhase.{AreFirstModels, ModelsCorners, ModelsCells};
ghost use Rattle.refusals.specs.Refused.{OnRefusal};

use crate::library_phases::model_cell;
use crate::library_reading::Libraries;
use cell_models::{CellList, CellSet, CellSets, JoinEnd, join_corners};
use corner_set::CornerSet;
use edge_io::{Text, TextList};
use refusals::Refusal;
use std::alloc::Global;
use verdict_phases::NoFileEnd;

// The models of the cell of a name at all corners, up to the first corner that refuses it.
#[tactic(auto, using(crate::proofs::CellLemmas::no_models, crate::proofs::CellLemmas::model_more, crate::proofs::CellLemmas::model_stops))]
fn models_of<C: CornerSet>(
    alloc: Global,
    libraries: &Libraries,
    name: &Text,
) -> Result<CellList, NoFileEnd<Refusal>>
    requires { length libraries.now ≡ C.COUNT }
    ensures ok { IfOk result (AreFirstModels (map tree_of libraries.now) name.now C.COUNT) }
    ensures refused { OnRefusal result (λ refusal. ModelsCorners (map tree_of libraries.now) name.now (Err refusal)) }
{
    let mut cells = CellList::new(alloc);
    for corner in 0..C::COUNT {
        let cell = model_cell(alloc, corner, libraries.get(corner), name)?;
        cells.push(cell)?;
    }
    Ok(cells)
}

// The models of the cell of a name at all corners, as one cell.
#[tactic(auto, using(crate::proofs::CellLemmas::is_modelled, crate::proofs::CellLemmas::is_unlike))]
fn model_corners<C: CornerSet>(
    alloc: Global,
    libraries: &Libraries,
    name: &Text,
) -> Result<CellSet<C>, NoFileEnd<Refusal>>
    requires { length libraries.now ≡ C.COUNT }
    ensures follows { FollowsNoFile (ModelsCorners (map tree_of libraries.now) name.now) result }
{
    let cells = models_of::<C>(alloc, libraries, name)?;
    match join_corners(alloc, cells) {
        Ok(set) => Ok(set),
        Err(JoinEnd::Shape(fault)) => {
            let cell = Text::from_bytes(alloc, name.bytes())?;
            Err(NoFileEnd::Refused(Refusal::CornerShape { cell, fault }))
        }
        Err(JoinEnd::OutOfMemory) => Err(NoFileEnd::OutOfMemory),
    }
}

/// The models of the cells that a design uses, in the order in which it uses them. For each cell the corners are asked in turn, and then
/// whether all have one shape.
#[tactic(auto, using(crate::proofs::CellLemmas::no_cells, crate::proofs::CellLemmas::cell_more, crate::proofs::CellLemmas::all_there, crate::proofs::CellLemmas::name_is_new, crate::specs::CellPhase::at_cell))]
pub fn model_cells<C: CornerSet>(
    alloc: Global,
    libraries: &Libraries,
    used: &TextList,
) -> Result<CellSets<C>, NoFileEnd<Refusal>>
    requires libraries { length libraries.now ≡ C.COUNT }
    requires distinct { AreDistinct used.now }
    ensures follows { FollowsNoFile (ModelsCells (map tree_of libraries.now) used.now) result }
{
    let mut cells = CellSets::new(alloc);
    for name in used.as_slice() {
        let set = model_corners::<C>(alloc, libraries, name)?;
        cells.add(name, set)?;
    }
    Ok(cells)
}
