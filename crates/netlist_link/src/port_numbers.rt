//! Ports of modules and pins of cells by their names.
ghost use Rattle.std.specs.Prelude.{◌≡◌, ◌<◌, length, map, Some, IfOk, IfSome};
ghost use Rattle.std.specs.Map.{lookup};
ghost use Rattle.std.specs.Str.{bytes_eq};
ghost use Rattle.cell_models.specs.CornerCells.{pins_at};
ghost use Rattle.verilog_netlist.specs.NetModules.{module_at};
ghost use Rattle.netlist_link.specs.FlatBits.{is_port_way};
ghost use Rattle.netlist_link.specs.PortTables.{ArePortNumbers, ArePinNumbers};

use cell_models::CellSet;
use corner_set::CornerSet;
use edge_io::{OutOfMemory, are_equal};
use indexmap::IndexMap;
use std::alloc::Global;
use verilog_netlist::{Modules, Way};

/// The numbers of ports, or of pins, by their names.
#[derive(Drop)]
pub(crate) struct PortNumbers<'a> {
    numbers: IndexMap<&'a [u8], usize>,
}

impl<'a> PortNumbers<'a> {
    // The number of the port or pin at a place of the table, where it has this name.
    fn number_at(&self, place: usize, name: &[u8]) -> Option<usize>
        ensures { IfSome result (λ number. lookup (λ other. bytes_eq name.now other.now) self.now.numbers.entries ≡ Some number) }
    {
        let entries = self.numbers.as_slice();
        let (other, number) = entries.get_index(place)?;
        if are_equal(other, name) {
            return Some(*number);
        }
        None
    }

    /// The number of the port or pin of this name, if there is one. Most connections are written in the order of ports or pins, so the one
    /// at the place of the connection is looked at first. It is one look-up at most.
    pub fn find(&self, name: &[u8], place: usize) -> Option<usize>
        ensures { result ≡ lookup (λ other. bytes_eq name.now other.now) self.now.numbers.entries }
    {
        match self.number_at(place, name) {
            Some(number) => Some(number),
            None => self.numbers.get(&name).copied(),
        }
    }
}

/// Whether a name of this way is a port.
pub(crate) fn is_port(way: Way) -> bool
    ensures { result ≡ is_port_way way }
{
    match way {
        Way::Inner => false,
        _ => true,
    }
}

/// The numbers of a module's ports among its names.
pub(crate) fn ports_of_module<'a>(
    alloc: Global,
    modules: &'a Modules<'_>,
    m: usize,
) -> Result<PortNumbers<'a>, OutOfMemory>
    requires { m < length modules.now }
    ensures { IfOk result (ArePortNumbers (module_at modules.now m).names) }
{
    let mut numbers = IndexMap::new(alloc);
    for i in 0..modules.name_count(m) {
        if is_port(modules.way(m, i)) {
            match numbers.insert(modules.name(m, i), i) {
                Ok(_) => {}
                Err(_) => return Err(OutOfMemory),
            }
        }
    }
    Ok(PortNumbers { numbers })
}

/// The numbers of a cell's pins.
pub(crate) fn pins_of_cell<'a, C: CornerSet>(
    alloc: Global,
    cell: &'a CellSet<C>,
    corner: C::Index,
) -> Result<PortNumbers<'a>, OutOfMemory>
    requires { C.number_of corner ≡ 0 }
    ensures { IfOk result (ArePinNumbers (map (λ pin. pin.name) (pins_at cell.now 0))) }
{
    let mut numbers = IndexMap::new(alloc);
    for j in 0..cell.pin_count() {
        match numbers.insert(cell.pin(j, corner).name.bytes(), j) {
            Ok(_) => {}
            Err(_) => return Err(OutOfMemory),
        }
    }
    Ok(PortNumbers { numbers })
}
