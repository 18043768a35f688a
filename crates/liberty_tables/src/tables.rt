//! The tables of a library (Liberty, `cell_rise`, `rise_transition` and the like).
ghost use Rattle.std.specs.Prelude.{◌≡◌, ◌↔◌, ℤ, pos, ◌≤ℤ◌, All, IsTrue, IfOk, IfErr};
ghost use Rattle.liberty_groups.specs.Tables.{tree_of, group_at, IsGroup};
ghost use Rattle.nldm_lookup.specs.Tables.{IsSmall};
ghost use Rattle.liberty_tables.specs.Kept.{table_refusal};
ghost use Rattle.liberty_tables.specs.FullTables.{IsFullTable};
ghost use Rattle.liberty_tables.specs.TableModel.{ValuesMean, TableMeans, TransitionMeans, value_pieces, table_over};
ghost use Rattle.liberty_tables.specs.TemplateIndex.{AreTemplates};

use crate::attribute_texts::last_of;
use crate::faults::CellFault;
use crate::library_units::LibraryUnits;
use crate::number_lists::read_list;
use crate::table_axes::{axis_of_variable, none_below_zero};
use crate::table_names::TableNames;
use crate::templates::Templates;
use delay_units::Unit;
use liberty_groups::{GroupId, GroupTree};
use nldm_lookup::{Axis, Order, Table, TableFault, Which};
use std::alloc::Global;

// The values of a table, read in the unit of time.
fn read_values(
    alloc: Global,
    tree: &GroupTree,
    table: GroupId,
    unit: &Unit,
) -> Result<Vec<i64>, CellFault>
    requires { IsGroup tree.now table.0 }
    ensures means { IfOk result (λ values. ValuesMean unit.now (value_pieces (group_at tree.now table.0)) (Ok values.items)) }
    ensures small { IfOk result (λ values. All IsSmall values.items) }
    ensures fault { IfErr result (λ fault. ValuesMean unit.now (value_pieces (group_at tree.now table.0)) (Err fault)) }
{
    let readings = read_list(alloc, tree, last_of(tree, table, b"values"), unit)?;
    if readings.within {
        Ok(readings.values)
    } else {
        Err(CellFault::BadNumber)
    }
}

// What is answered where there is no table over some axes.
fn refusal_of(fault: TableFault) -> CellFault
    ensures { result ≡ table_refusal fault }
{
    match fault {
        TableFault::OutOfMemory => CellFault::OutOfMemory,
        TableFault::ValueCount { want: _, got: _ } => CellFault::BadTable,
    }
}

// The table of some values over two axes.
fn full_table(
    alloc: Global,
    slew: Axis,
    load: Axis,
    order: Order,
    values: &[i64],
) -> Result<Table, CellFault>
    requires { All IsSmall values.now }
    ensures table { IsFullTable (record { slew = slew; load = load; order = order; values = values.now }) result }
    ensures values { IfOk result (λ table. table.values ≡ values.now) }
{
    match Table::new(alloc, slew, load, order, values) {
        Ok(table) => Ok(table),
        Err(fault) => Err(refusal_of(fault)),
    }
}

// The table of some values over the axes of its first and of its second variable.
fn table_over(
    alloc: Global,
    variable: Option<Which>,
    first: Axis,
    second: Axis,
    values: &[i64],
) -> Result<Table, CellFault>
    requires { All IsSmall values.now }
    ensures table { IsFullTable (table_over variable first second values.now) result }
    ensures values { IfOk result (λ table. table.values ≡ values.now) }
{
    match variable {
        Some(Which::Load) => full_table(alloc, second, first, Order::LoadFirst, values),
        Some(Which::Slew) => full_table(alloc, first, second, Order::SlewFirst, values),
        None => full_table(alloc, first, second, Order::SlewFirst, values),
    }
}

// A table that was built, and whether no value of it is below 0.
#[derive(Drop)]
struct Built {
    table: Table,
    is_settled: bool,
}

// The table of a group.
fn build(
    alloc: Global,
    tree: &GroupTree,
    group: GroupId,
    called: &TableNames,
    templates: &Templates,
    units: &LibraryUnits,
) -> Result<Built, CellFault>
    requires group { IsGroup tree.now group.0 }
    requires templates { AreTemplates tree.now called.now units.now templates.now }
    ensures table { IfOk result (λ built. TableMeans called.now (tree_of tree.now) (group_at tree.now group.0) units.now (Ok built.table)) }
    ensures settled { IfOk result (λ built. IsTrue built.is_settled ↔ All (λ value. pos 0 ≤ℤ value) built.table.values) }
    ensures fault { IfErr result (λ fault. TableMeans called.now (tree_of tree.now) (group_at tree.now group.0) units.now (Err fault)) }
{
    let Some(read) = templates.of_table(tree, group) else {
        return Err(CellFault::UnknownTemplate);
    };
    let Some(template) = read else {
        return Err(CellFault::UnknownVariable);
    };
    let first = axis_of_variable(
        alloc,
        tree,
        group,
        b"index_1",
        &template.first,
        called,
        units,
        template.variables.first,
    )?;
    let second = axis_of_variable(
        alloc,
        tree,
        group,
        b"index_2",
        &template.second,
        called,
        units,
        template.variables.second,
    )?;
    let values = read_values(alloc, tree, group, &units.time)?;
    let table = table_over(
        alloc,
        template.variables.first,
        first,
        second,
        values.as_slice(),
    )?;
    let is_settled = none_below_zero(values.as_slice());
    Ok(Built { table, is_settled })
}

/// The table of a group over the slew of an input and the load of an output, in attoseconds; or the first fault of these:
/// `UnknownTemplate`, `UnknownVariable`, for each axis in order `BadNumber` and `BadAxis`, `BadNumber` in the values, `BadTable`
/// for a wrong count of them.
pub fn build_table(
    alloc: Global,
    tree: &GroupTree,
    group: GroupId,
    called: &TableNames,
    templates: &Templates,
    units: &LibraryUnits,
) -> Result<Table, CellFault>
    requires group { IsGroup tree.now group.0 }
    requires templates { AreTemplates tree.now called.now units.now templates.now }
    ensures means { TableMeans called.now (tree_of tree.now) (group_at tree.now group.0) units.now result }
{
    match build(alloc, tree, group, called, templates, units) {
        Ok(built) => Ok(built.table),
        Err(fault) => Err(fault),
    }
}

/// The table of a transition, likewise; after all of those faults `NegativeTransition`, for a value below 0.
pub fn build_transition(
    alloc: Global,
    tree: &GroupTree,
    group: GroupId,
    called: &TableNames,
    templates: &Templates,
    units: &LibraryUnits,
) -> Result<Table, CellFault>
    requires group { IsGroup tree.now group.0 }
    requires templates { AreTemplates tree.now called.now units.now templates.now }
    ensures means { TransitionMeans called.now (tree_of tree.now) (group_at tree.now group.0) units.now result }
{
    let built = build(alloc, tree, group, called, templates, units)?;
    if built.is_settled {
        Ok(built.table)
    } else {
        Err(CellFault::NegativeTransition)
    }
}
