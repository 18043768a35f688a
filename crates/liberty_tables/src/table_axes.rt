//! The axes of tables (Liberty, `index_1` and `index_2`).
ghost use Rattle.std.specs.Prelude.{◌≡◌, ◌↔◌, ℕ, ℤ, pos, ◌≤ℤ◌, List, [], All, IsTrue, IfSome};
ghost use Rattle.liberty_groups.specs.Groups.{Attribute, attributes_of};
ghost use Rattle.liberty_groups.specs.Tables.{group_at, IsGroup, IsAttribute};
ghost use Rattle.nldm_lookup.specs.Tables.{IsSmall};
ghost use Rattle.liberty_tables.specs.Kept.{texts_of, refusal_of, IsCopy};
ghost use Rattle.liberty_tables.specs.NumberLists.{pieces_of};
ghost use Rattle.liberty_tables.specs.TableModel.{IsAxisOf, AxisMeans, PointsMean, unit_of, index_of};

use crate::attribute_texts::last_of;
use crate::faults::CellFault;
use crate::library_units::LibraryUnits;
use crate::number_lists::read_list;
use crate::table_names::TableNames;
use delay_units::Unit;
use liberty_groups::{AttrId, GroupId, GroupTree};
use nldm_lookup::{Axis, AxisFault, Which};
use std::alloc::Global;

// Whether no reading is below 0.
pub(crate) fn none_below_zero(values: &[i64]) -> bool
    ensures { IsTrue result ↔ All (λ value. pos 0 ≤ℤ value) values.now }
{
    values.iter().all(|value| *value >= 0)
}

// What is answered where points are no axis.
fn refusal_of(fault: AxisFault) -> CellFault
    ensures { result ≡ refusal_of fault }
{
    match fault {
        AxisFault::OutOfMemory => CellFault::OutOfMemory,
        _ => CellFault::BadAxis,
    }
}

// The axis of readings within the bound.
fn axis_of(alloc: Global, points: &[i64]) -> Result<Axis, CellFault>
    requires { All IsSmall points.now }
    ensures { IsAxisOf points.now result }
{
    if !none_below_zero(points) {
        return Err(CellFault::BadAxis);
    }
    match Axis::new(alloc, points) {
        Ok(axis) => Ok(axis),
        Err(fault) => Err(refusal_of(fault)),
    }
}

// The axis of the pieces of an index, read in a unit.
fn read_axis(
    alloc: Global,
    tree: &GroupTree,
    index: Option<AttrId>,
    unit: &Unit,
) -> Result<Axis, CellFault>
    requires { IfSome index (λ a. IsAttribute tree.now a.0) }
    ensures { AxisMeans unit.now (pieces_of (texts_of tree.now index)) result }
{
    let readings = read_list(alloc, tree, index, unit)?;
    if readings.within {
        axis_of(alloc, readings.values.as_slice())
    } else {
        Err(CellFault::BadAxis)
    }
}

impl LibraryUnits {
    // The unit of an axis.
    fn of(&self, called: &TableNames, which: Which) -> &Unit
        ensures { result.now ≡ unit_of called.now self.now which }
    {
        match which {
            Which::Slew => &self.time,
            Which::Load => {
                if called.other_is_time {
                    &self.time
                } else {
                    &self.load
                }
            }
        }
    }
}

/// The axis of a variable by an index, if that stands; and the axis of the one point 0, where there is no variable.
pub(crate) fn axis_at(
    alloc: Global,
    tree: &GroupTree,
    index: Option<AttrId>,
    called: &TableNames,
    units: &LibraryUnits,
    variable: Option<Which>,
) -> Result<Axis, CellFault>
    requires { IfSome index (λ a. IsAttribute tree.now a.0) }
    ensures { (key : List ℕ) (table template : List Attribute) → texts_of tree.now index ≡ index_of key table template
        → PointsMean called.now units.now key table template variable result }
{
    let Some(which) = variable else {
        return axis_of(alloc, &[0]);
    };
    read_axis(alloc, tree, index, units.of(called, which))
}

// The same axis, which is shared, or the same fault.
fn copied(axis: &Result<Axis, CellFault>) -> Result<Axis, CellFault>
    ensures { IsCopy axis.now result }
{
    match axis {
        Ok(axis) => match axis.copied() {
            Ok(copy) => Ok(copy),
            Err(_) => Err(CellFault::OutOfMemory),
        },
        Err(fault) => Err(*fault),
    }
}

/// The axis of a variable of a table, by its own index, or where it has none by that of its template, which has been read.
pub(crate) fn axis_of_variable(
    alloc: Global,
    tree: &GroupTree,
    table: GroupId,
    key: &[u8],
    of_template: &Result<Axis, CellFault>,
    called: &TableNames,
    units: &LibraryUnits,
    variable: Option<Which>,
) -> Result<Axis, CellFault>
    requires { IsGroup tree.now table.0 }
    ensures { (template : List Attribute) → PointsMean called.now units.now key.now [] template variable of_template.now
        → PointsMean called.now units.now key.now (attributes_of (group_at tree.now table.0)) template variable result }
{
    match last_of(tree, table, key) {
        Some(index) => axis_at(alloc, tree, Some(index), called, units, variable),
        None => copied(of_template),
    }
}
