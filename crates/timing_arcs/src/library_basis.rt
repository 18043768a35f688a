//! What the pins and the tables of all cells of a library stand on, read once.
ghost use Rattle.std.specs.Prelude.{◌≡◌, IfOk, IfErr};
ghost use Rattle.liberty_groups.specs.Tables.{tree_of};
ghost use Rattle.liberty_tables.specs.LibraryUnits.{AreUnits};
ghost use Rattle.timing_arcs.specs.CellFaults.{unit_questions, IsRefusal};
ghost use Rattle.timing_arcs.specs.DelayTables.{delay_names};
ghost use Rattle.timing_arcs.specs.LibraryBasis.{IsBasis};

use crate::capacitances::default_capacitance;
use edge_io::{OutOfMemory, Text};
use liberty_groups::GroupTree;
use liberty_tables::{CellFault, LibraryUnits, TableNames, Templates, load_unit, time_unit};
use std::alloc::Global;

/// What the pins and the tables of all cells of a library stand on: its units, what the variables of its tables are called, its templates,
/// and the capacitance of an input pin that has none of its own, unless that is no capacitance.
#[derive(Drop)]
pub(crate) struct LibraryBasis {
    pub units: LibraryUnits,
    pub called: TableNames,
    pub templates: Templates,
    pub default_cap: Option<u64>,
}

// What the variables of the tables of delays are called.
fn delay_names(alloc: Global) -> Result<TableNames, OutOfMemory>
    ensures { IfOk result (λ called. called ≡ delay_names) }
{
    let slew = Text::from_bytes(alloc, b"input_net_transition")?;
    let other = Text::from_bytes(alloc, b"total_output_net_capacitance")?;
    Ok(TableNames {
        slew,
        other,
        other_is_time: false,
    })
}

// The same of a library with these units.
fn with_units(
    alloc: Global,
    tree: &GroupTree,
    units: LibraryUnits,
) -> Result<LibraryBasis, OutOfMemory>
    requires { AreUnits (tree_of tree.now) units }
    ensures { IfOk result (IsBasis tree.now) }
{
    let called = delay_names(alloc)?;
    let templates = Templates::new(alloc, tree, &called, &units)?;
    let default_cap = default_capacitance(tree, &units.load);
    Ok(LibraryBasis {
        units,
        called,
        templates,
        default_cap,
    })
}

/// What the cells of a library stand on (Liberty, `time_unit` and `capacitive_load_unit`), or why none has a model. A bad unit of time
/// comes before a bad one of loads.
pub(crate) fn library_basis(
    alloc: Global,
    tree: &GroupTree,
) -> Result<Result<LibraryBasis, CellFault>, OutOfMemory>
    ensures ok { IfOk result (λ basis. IfOk basis (IsBasis tree.now)) }
    ensures refused { IfOk result (λ basis. IfErr basis (IsRefusal (tree_of tree.now) unit_questions)) }
{
    let Some(time) = time_unit(tree) else {
        return Ok(Err(CellFault::BadUnit));
    };
    let Some(load) = load_unit(tree) else {
        return Ok(Err(CellFault::BadUnit));
    };
    let basis = with_units(alloc, tree, LibraryUnits { time, load })?;
    Ok(Ok(basis))
}
