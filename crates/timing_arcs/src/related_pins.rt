//! The pins that the arcs of a delay group lead from (Liberty, `related_pin`).
ghost use Rattle.std.specs.Prelude.{◌≡◌, ℕ, ◌<◌, ◌++◌, ◌∷◌, [], length, List, All, Some, IfOk, OnOk, IfErr, unwrap_or};
ghost use Rattle.liberty_groups.specs.Tables.{group_at, IsGroup};
ghost use Rattle.token_texts.specs.Blanks.{is_blank};
ghost use Rattle.timing_arcs.specs.PinModel.{is_input};
ghost use Rattle.token_texts.specs.Pieces.{pieces_between};
ghost use Rattle.timing_arcs.specs.DelayGroups.{related_names};
ghost use Rattle.timing_arcs.specs.CellReading.{entries_of};
ghost use Rattle.timing_arcs.specs.RelatedPins.{IsPlaceOf, ArePlaces, IsUnrelated};

use crate::cell_reading::CellReading;
use cell_models::Direction;
use liberty_groups::GroupId;
use liberty_tables::{CellFault, value_in};
use std::alloc::Global;
use token_texts::{Blank, first_piece};

fn is_input(direction: Direction) -> bool
    ensures { result ≡ is_input (Some direction) }
{
    match direction {
        Direction::Input => true,
        _ => false,
    }
}

// The place of a name of a pin, if that is an input pin.
fn place_of(cell: &CellReading<'_>, name: &[u8]) -> Result<Option<usize>, CellFault>
    ensures ok { IfOk result (IsPlaceOf (entries_of cell.now) cell.now.names name.now) }
    ensures err { IfErr result (IsUnrelated (entries_of cell.now) (name.now ∷ [])) }
{
    let Some(place) = cell.place_of(name) else {
        return Err(CellFault::UnknownRelatedPin);
    };
    if is_input(cell.pin(place).direction) {
        Ok(Some(place))
    } else {
        Ok(None)
    }
}

// The place of a name, if that is an input pin, goes last.
fn add_place(cell: &CellReading<'_>, name: &[u8], places: &mut Vec<usize>) -> Result<(), CellFault>
    ensures ok { (done : List (List ℕ)) → ArePlaces
        (entries_of cell.now) cell.now.names done places.old.items
        → OnOk result (ArePlaces (entries_of cell.now) cell.now.names
        (done ++ name.now ∷ []) places.new.items) }
    ensures err { IfErr result (IsUnrelated (entries_of cell.now) (name.now ∷ [])) }
{
    match place_of(cell, name) {
        Ok(None) => Ok(()),
        Ok(Some(place)) => match places.push(place) {
            Ok(_) => Ok(()),
            Err(_) => Err(CellFault::OutOfMemory),
        },
        Err(fault) => Err(fault),
    }
}

// The places of the names in a text.
fn places_in(alloc: Global, cell: &CellReading<'_>, text: &[u8]) -> Result<Vec<usize>, CellFault>
    ensures ok { IfOk result (λ places. ArePlaces (entries_of cell.now) cell.now.names
        (pieces_between is_blank text.now) places.items) }
    ensures err { IfErr result
        (IsUnrelated (entries_of cell.now) (pieces_between is_blank text.now)) }
{
    let mut places = Vec::new(alloc);
    let mut rest = text;
    while let Some((name, others)) = first_piece::<Blank>(rest) {
        add_place(cell, name, &mut places)?;
        rest = others;
    }
    Ok(places)
}

/// The places of the related pins of a delay group that are input pins, in the order in which they are named.
pub(crate) fn related_places(
    alloc: Global,
    cell: &CellReading<'_>,
    group: GroupId,
) -> Result<Vec<usize>, CellFault>
    requires group { IsGroup cell.now.tree group.0 }
    ensures ok { IfOk result (λ places. ArePlaces (entries_of cell.now) cell.now.names
        (related_names (group_at cell.now.tree group.0)) places.items) }
    ensures err { IfErr result
        (IsUnrelated (entries_of cell.now) (related_names (group_at cell.now.tree group.0))) }
{
    match value_in(cell.tree(), group, b"related_pin") {
        Some(text) => places_in(alloc, cell, text),
        None => places_in(alloc, cell, &[]),
    }
}
