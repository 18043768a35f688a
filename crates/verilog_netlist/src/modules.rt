//! The modules of a netlist.
ghost use Rattle.std.specs.Prelude.{◌≡◌, ℕ, ◌<◌, ◌≤◌, ◌^◌, List, length, slice_get, Some, All, IfOk, IfSome, IfNone};
ghost use Rattle.verilog_netlist.specs.NetModules.{module_at, name_at, instance_at, connection_at, runs_at, bits_at, HasFewBits};
ghost use Rattle.verilog_netlist.specs.ModuleTables.{modules_in, AreTables};
ghost use Rattle.verilog_netlist.specs.ModuleNumbers.{AreNumbers};
ghost use Rattle.verilog_netlist.specs.Netlist.{SaysSound};
ghost use Rattle.verilog_netlist.specs.Ranges.{whole_width};
ghost use Rattle.verilog_netlist.specs.SoundModules.{Differ, AreWithin, HasNames, HasFewBitsEach, HasPortsFirst};
ghost use Rattle.verilog_netlist.specs.declared.runs.Bit.{Bit};
ghost use Rattle.verilog_netlist.specs.declared.runs.Run.{Run};

use crate::entries::Range;
use crate::net_names::Way;
use crate::ranges::whole_width;
use crate::runs::{Bit, Run};
use crate::tables::Tables;
use edge_io::OutOfMemory;
use indexmap::IndexMap;
use std::alloc::Global;
use std::marker::Model;

/// The modules of a netlist, in flat tables: memory is linear in the bytes of the file, whatever the widths. Contracts see the list of
/// the modules. Modules, names, instances, connections and bits count from 0.
#[derive(Drop)]
pub struct Modules<'a> {
    tables: Tables<'a>,
    numbers: IndexMap<&'a [u8], usize>,
}

impl<'a> Model for Modules<'a> {
    ghost use Rattle.std.specs.Prelude.{List};
    ghost use Rattle.verilog_netlist.specs.NetModules.{NetModule};
    ghost use Rattle.verilog_netlist.specs.ModuleTables.{modules_in, AreTables};
    ghost use Rattle.verilog_netlist.specs.ModuleNumbers.{AreNumbers};
    ghost use Rattle.verilog_netlist.specs.Netlist.{SaysSound};

    ghost Value = { List NetModule };

    ghost view = { λ m. modules_in m.tables };

    // what is kept is what the bytes say, and no name and no range of that is at fault
    ghost invariant = { λ m. AreTables m.tables × AreNumbers (modules_in m.tables) m.numbers.entries
        × SaysSound m.tables.bytes.now m.tables.entries.items };
}

impl<'a> Modules<'a> {
    /// The modules of these tables.
    pub(crate) fn of(tables: Tables<'a>, numbers: IndexMap<&'a [u8], usize>) -> Modules<'a>
        requires tables { AreTables tables }
        requires numbers { AreNumbers (modules_in tables) numbers.entries }
        requires sound { SaysSound tables.bytes.now tables.entries.items }
        ensures { result ≡ modules_in tables.entry }
    {
        Modules { tables, numbers }
    }

    /// The law of modules, which its contract states: names differ, those of the modules of a file, those of a module, those of the
    /// instances of a module, and those of the ports of an instance. What is joined to a port are bits of names of the module, within
    /// their ranges. Each name has a byte, each range is within the limits, and names with a direction come first. It does nothing when
    /// it is called.
    pub fn sound(&self)
        ensures modules { Differ (length self.now) (λ m. (module_at self.now m).name) }
        ensures names { (m : ℕ) → m < length self.now → Differ (length (module_at self.now m).names) (λ i. (name_at self.now m i).text) }
        ensures instances { (m : ℕ) → m < length self.now
            → Differ (length (module_at self.now m).instances) (λ k. (instance_at self.now m k).name) }
        ensures ports { (m k : ℕ) → m < length self.now → k < length (module_at self.now m).instances
            → Differ (length (instance_at self.now m k).connections) (λ c. (connection_at self.now m k c).port) }
        ensures runs { (m k c r : ℕ) (run : Run) → m < length self.now → k < length (module_at self.now m).instances
            → c < length (instance_at self.now m k).connections → slice_get (runs_at self.now m k c) r ≡ Some run
            → AreWithin (module_at self.now m).names run.first run.count }
        ensures bits { (m k c b : ℕ) (bit : Bit) → m < length self.now → k < length (module_at self.now m).instances
            → c < length (instance_at self.now m k).connections → slice_get (bits_at self.now m k c) b ≡ Some bit
            → AreWithin (module_at self.now m).names bit 1 }
        ensures named { All HasNames self.now }
        ensures ranges { All HasFewBitsEach self.now }
        ensures ways { (m : ℕ) → m < length self.now → HasPortsFirst (module_at self.now m) }
    {
        let _ = &self.numbers;
    }

    /// How many modules the file has.
    pub fn module_count(&self) -> usize
        ensures { result ≡ length self.now }
    {
        self.tables.places.module_count()
    }

    /// The module of this name, if the file has one. It takes one look-up in a table.
    pub fn find(&self, name: &[u8]) -> Option<usize>
        ensures some { IfSome result (λ m. (m < length self.now) × ((module_at self.now m).name ≡ name.now)) }
        ensures none { IfNone result ((m : ℕ) → m < length self.now → (module_at self.now m).name ≡ name.now → ⊥) }
    {
        self.numbers.get(&name).copied()
    }

    /// The name of a module.
    pub fn module_name(&self, m: usize) -> &[u8]
        requires { m < length self.now }
        ensures { result.now ≡ (module_at self.now m).name }
    {
        self.tables.name_at(self.tables.module(m).place)
    }

    /// How many names a module has: those of its header, then those that `wire` declares, then those that are only joined to ports.
    pub fn name_count(&self, m: usize) -> usize
        requires { m < length self.now }
        ensures { result ≡ length (module_at self.now m).names }
    {
        self.tables.names(m).len()
    }

    /// A name of a module.
    pub fn name(&self, m: usize, i: usize) -> &[u8]
        requires within { m < length self.now }
        requires place { i < length (module_at self.now m).names }
        ensures { result.now ≡ (name_at self.now m i).text }
    {
        self.tables.names(m)[i].text
    }

    /// Whether a name is a port of its module, and of which direction.
    pub fn way(&self, m: usize, i: usize) -> Way
        requires within { m < length self.now }
        requires place { i < length (module_at self.now m).names }
        ensures { result ≡ (name_at self.now m i).way }
    {
        self.tables.names(m)[i].way()
    }

    /// The range of a name. A name without one has one bit.
    pub fn range(&self, m: usize, i: usize) -> Option<Range>
        requires within { m < length self.now }
        requires place { i < length (module_at self.now m).names }
        ensures { result ≡ (name_at self.now m i).range }
    {
        self.tables.names(m)[i].range()
    }

    /// How many bits a name has: those of its range, and one without a range.
    pub fn width(&self, m: usize, i: usize) -> usize
        requires within { m < length self.now }
        requires place { i < length (module_at self.now m).names }
        ensures width { result ≡ whole_width (name_at self.now m i).range }
        ensures few { result ≤ 2 ^ 32 }
    {
        whole_width(self.tables.names(m)[i].range()) as usize
    }

    /// How many instances a module has.
    pub fn instance_count(&self, m: usize) -> usize
        requires { m < length self.now }
        ensures { result ≡ length (module_at self.now m).instances }
    {
        let extent = self.tables.module(m);
        extent.instances_end - extent.first_instance
    }

    /// The name of an instance.
    pub fn instance_name(&self, m: usize, k: usize) -> &[u8]
        requires within { m < length self.now }
        requires place { k < length (module_at self.now m).instances }
        ensures { result.now ≡ (instance_at self.now m k).name }
    {
        self.tables.name_at(self.tables.instance(m, k).place)
    }

    /// The cell or the module that an instance is of.
    pub fn instance_of(&self, m: usize, k: usize) -> &[u8]
        requires within { m < length self.now }
        requires place { k < length (module_at self.now m).instances }
        ensures { result.now ≡ (instance_at self.now m k).cell }
    {
        self.tables.cell_at(self.tables.instance(m, k).place)
    }

    /// How many connections an instance has.
    pub fn connection_count(&self, m: usize, k: usize) -> usize
        requires within { m < length self.now }
        requires place { k < length (module_at self.now m).instances }
        ensures { result ≡ length (instance_at self.now m k).connections }
    {
        let extent = self.tables.instance(m, k);
        extent.connections_end - extent.first_connection
    }

    /// The port of a connection, in the order in which connections are written.
    pub fn port(&self, m: usize, k: usize, c: usize) -> &[u8]
        requires within { m < length self.now }
        requires instance { k < length (module_at self.now m).instances }
        requires place { c < length (instance_at self.now m k).connections }
        ensures { result.now ≡ (connection_at self.now m k c).port }
    {
        self.tables.name_at(self.tables.connection(m, k, c).place)
    }

    /// How many runs of bits are joined to the port of a connection: one for each name, select and constant that is written there. It
    /// takes one pass over them.
    pub fn run_count(&self, m: usize, k: usize, c: usize) -> usize
        requires within { m < length self.now }
        requires instance { k < length (module_at self.now m).instances }
        requires place { c < length (instance_at self.now m k).connections }
        ensures { result ≡ length (runs_at self.now m k c) }
    {
        let extent = self.tables.joined(m, k, c);
        extent.end - extent.place - 1
    }

    /// A run of a connection, from the left. The bits of a connection are those of its runs, one run after another.
    pub fn run(&self, m: usize, k: usize, c: usize, r: usize) -> Run
        requires within { m < length self.now }
        requires instance { k < length (module_at self.now m).instances }
        requires connection { c < length (instance_at self.now m k).connections }
        requires place { r < length (runs_at self.now m k c) }
        ensures value { slice_get (runs_at self.now m k c) r ≡ Some result }
        ensures few { HasFewBits result }
    {
        let extent = self.tables.connection(m, k, c);
        self.tables.run(m, extent.place + 1 + r)
    }

    /// How many bits are joined to the port of a connection; 0 where nothing is. It takes one pass over what is joined.
    pub fn bit_count(&self, m: usize, k: usize, c: usize) -> usize
        requires within { m < length self.now }
        requires instance { k < length (module_at self.now m).instances }
        requires place { c < length (instance_at self.now m k).connections }
        ensures { result ≡ length (bits_at self.now m k c) }
    {
        self.tables.bit_count(m, self.tables.joined(m, k, c))
    }

    /// A bit of a connection, from the left, if it has so many. It takes one pass over what is joined.
    pub fn get_bit(&self, m: usize, k: usize, c: usize, b: usize) -> Option<Bit>
        requires within { m < length self.now }
        requires instance { k < length (module_at self.now m).instances }
        requires place { c < length (instance_at self.now m k).connections }
        ensures { result ≡ slice_get (bits_at self.now m k c) b }
    {
        self.tables.bit(m, self.tables.joined(m, k, c), b)
    }
}

/// The number of each module, by its name.
pub(crate) fn number_modules<'a>(
    alloc: Global,
    tables: &Tables<'a>,
) -> Result<IndexMap<&'a [u8], usize>, OutOfMemory>
    requires { AreTables tables.now }
    ensures { IfOk result (λ numbers. AreNumbers (modules_in tables.now) numbers.entries) }
{
    let mut numbers = IndexMap::new(alloc);
    for m in 0..tables.places.module_count() {
        let name = tables.name_at(tables.module(m).place);
        match numbers.insert(name, m) {
            Ok(_) => {}
            Err(_) => return Err(OutOfMemory),
        }
    }
    Ok(numbers)
}
