//! The modules of which each module has instances.
ghost use Rattle.std.specs.Prelude.{◌≡◌, ◌<◌, length, IfOk};
ghost use Rattle.verilog_netlist.specs.NetModules.{NetModule};
ghost use Rattle.hierarchy.specs.InstanceCells.{AreInstanceCells};
ghost use Rattle.hierarchy.specs.Lowers.{lowers_of, lowers_at, AreLowers, AreBelow};

use crate::instance_cells::InstanceCells;
use edge_io::OutOfMemory;
use edge_io::lists::push;
use std::alloc::Global;
use std::marker::Model;
use verilog_netlist::Modules;

/// For each module the modules of its instances, one for each that is of a module. Contracts see the lists.
#[derive(Drop)]
pub(crate) struct Lowers {
    rows: Vec<Vec<usize>>,
}

impl Model for Lowers {
    ghost use Rattle.std.specs.Prelude.{ℕ, List, map};

    ghost Value = { List (List ℕ) };

    ghost view = { λ lowers. map (λ row. row.items) lowers.rows.items };
}

impl Lowers {
    /// Those of each module of a file.
    pub(crate) fn of(
        alloc: Global,
        modules: &Modules,
        cells: &InstanceCells,
    ) -> Result<Lowers, OutOfMemory>
        requires { AreInstanceCells modules.now cells.now }
        ensures { IfOk result (AreLowers modules.now) }
    {
        let mut rows = Vec::new(alloc);
        for m in 0..modules.module_count() {
            push(&mut rows, lowers_in(alloc, modules, cells, m)?)?;
        }
        Ok(Lowers { rows })
    }

    /// How many modules there are.
    pub(crate) fn len(&self) -> usize
        ensures { result ≡ length self.now }
    {
        self.rows.len()
    }

    /// The modules of the instances of a module.
    pub(crate) fn at(&self, m: usize) -> &[usize]
        requires { m < length self.now }
        ensures { result.now ≡ lowers_at self.now m }
    {
        self.rows[m].as_slice()
    }
}

// The modules of the instances of a module.
fn lowers_in(
    alloc: Global,
    modules: &Modules,
    cells: &InstanceCells,
    m: usize,
) -> Result<Vec<usize>, OutOfMemory>
    requires within { m < length modules.now }
    requires cells { AreInstanceCells modules.now cells.now }
    ensures { IfOk result (λ row. row.items ≡ lowers_of modules.now m) }
{
    let mut row = Vec::new(alloc);
    for k in 0..modules.instance_count(m) {
        if let Some(lower) = cells.lower(m, k) {
            push(&mut row, lower)?;
        }
    }
    Ok(row)
}
