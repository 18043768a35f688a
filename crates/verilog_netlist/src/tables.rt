//! What is kept of the modules of a netlist.
ghost use Rattle.std.specs.Prelude.{◌≡◌, ◌+◌, ◌<◌, ◌≤◌, length, map, slice_get};
ghost use Rattle.std.specs.List.{prefix_len};
ghost use Rattle.token_texts.specs.Spans.{text_at};
ghost use Rattle.verilog_netlist.specs.Namespaces.{name_of};
ghost use Rattle.verilog_netlist.specs.Parts.{is_expression};
ghost use Rattle.verilog_netlist.specs.PartPlaces.{entry_at};
ghost use Rattle.verilog_netlist.specs.NameRows.{start_at};
ghost use Rattle.verilog_netlist.specs.NetModules.{cell_of, module_at, instance_at, HasFewBits};
ghost use Rattle.verilog_netlist.specs.ModuleTables.{modules_in, name_row, names_at, run_at, bits_between, AreTables, IsModuleAt, IsInstanceAt, IsConnectionAt, IsJoinedAt, IsNumberAt};

use crate::entries::Entry;
use crate::net_names::{NameRow, NetNames};
use crate::places::{ConnectionExtent, InstanceExtent, ModuleExtent, Places, between};
use crate::runs::{Bit, Run, bit_run, part_run, whole_run};
use crate::scan::constant_width;
use token_texts::Span;

/// How many expressions stand in front of the first entry that is none.
fn expressions_in_front(entries: &[Entry]) -> usize
    ensures value { result ≡ prefix_len is_expression entries.now }
    ensures within { result ≤ length entries.now }
{
    let mut count = 0;
    while count < entries.len() && entries[count].is_expression() {
        count += 1;
    }
    count
}

/// The bytes of a netlist and what they say, the places of its parts, and the names of its modules.
#[derive(Drop)]
pub struct Tables<'a> {
    pub bytes: &'a [u8],
    pub entries: Vec<Entry>,
    pub places: Places,
    pub names: NetNames<'a>,
}

impl Entry {
    /// The cell or the module of an instance.
    #[inline]
    pub(crate) fn cell(self) -> Span
        ensures { result ≡ cell_of self }
    {
        match self {
            Entry::Instance(cell, _) => cell,
            _ => self.name(),
        }
    }

    /// Whether it can be joined to a port.
    #[inline]
    fn is_expression(self) -> bool
        ensures { result ≡ is_expression self }
    {
        match self {
            Entry::Whole(_) | Entry::Bit(_, _) | Entry::Part(_, _) | Entry::Constant(_) => true,
            _ => false,
        }
    }
}

impl<'a> Tables<'a> {
    /// The name that the entry at this place speaks of.
    #[inline]
    pub(crate) fn name_at(&self, place: usize) -> &'a [u8]
        requires { place < length self.now.entries.items }
        ensures { result.now ≡ text_at self.now.bytes.now (name_of (entry_at self.now.entries.items place)) }
    {
        self.entries[place].name().of(self.bytes)
    }

    /// The cell or the module of the instance at this place.
    #[inline]
    pub(crate) fn cell_at(&self, place: usize) -> &[u8]
        requires { place < length self.now.entries.items }
        ensures { result.now ≡ text_at self.now.bytes.now (cell_of (entry_at self.now.entries.items place)) }
    {
        self.entries[place].cell().of(self.bytes)
    }

    /// Where a module is.
    #[inline]
    pub(crate) fn module(&self, m: usize) -> ModuleExtent
        requires sound { AreTables self.now }
        requires place { m < length (modules_in self.now) }
        ensures { IsModuleAt self.now m result }
    {
        self.places.module(m)
    }

    /// The rows of the names of a module.
    #[inline]
    pub(crate) fn names(&self, m: usize) -> &[NameRow<'a>]
        requires sound { AreTables self.now }
        requires place { m < length (modules_in self.now) }
        ensures { map name_row result.now ≡ names_at self.now m }
    {
        let from = self.names.starts[m] as usize;
        let end = self.names.starts[m + 1] as usize;
        self.names.rows.as_slice().split_at(end).0.split_at(from).1
    }

    /// Where an instance of a module is.
    #[inline]
    pub(crate) fn instance(&self, m: usize, k: usize) -> InstanceExtent
        requires sound { AreTables self.now }
        requires within { m < length (modules_in self.now) }
        requires place { k < length (module_at (modules_in self.now) m).instances }
        ensures { IsInstanceAt self.now m k result }
    {
        self.places.instance(self.module(m), k)
    }

    /// Where a connection of an instance is.
    #[inline]
    pub(crate) fn connection(&self, m: usize, k: usize, c: usize) -> ConnectionExtent
        requires sound { AreTables self.now }
        requires within { m < length (modules_in self.now) }
        requires instance { k < length (module_at (modules_in self.now) m).instances }
        requires place { c < length (instance_at (modules_in self.now) m k).connections }
        ensures { IsConnectionAt self.now m k c result }
    {
        self.places.connection(self.instance(m, k), c)
    }

    /// Where a connection of an instance is with all that is joined to its port. It takes one pass over that.
    pub(crate) fn joined(&self, m: usize, k: usize, c: usize) -> ConnectionExtent
        requires sound { AreTables self.now }
        requires within { m < length (modules_in self.now) }
        requires instance { k < length (module_at (modules_in self.now) m).instances }
        requires place { c < length (instance_at (modules_in self.now) m k).connections }
        ensures { IsJoinedAt self.now m k c result }
    {
        let extent = self.connection(m, k, c);
        let from = extent.place + 1;
        let behind = between(&self.entries, from, extent.end);
        ConnectionExtent {
            place: extent.place,
            end: from + expressions_in_front(behind),
        }
    }

    /// The number of the name that is joined at this place of a module.
    #[inline]
    fn number(&self, m: usize, place: usize) -> usize
        requires sound { AreTables self.now }
        requires within { m < length (modules_in self.now) }
        requires start { start_at self.now.places m < place }
        requires end { place < start_at self.now.places (m + 1) }
        ensures { IsNumberAt self.now m place result }
    {
        self.names.numbers[place] as usize
    }

    /// The bits of what is joined at this place of a module; what is no expression has none.
    #[inline]
    pub(crate) fn run(&self, m: usize, place: usize) -> Run
        requires sound { AreTables self.now }
        requires within { m < length (modules_in self.now) }
        requires start { start_at self.now.places m < place }
        requires end { place < start_at self.now.places (m + 1) }
        ensures value { result ≡ run_at self.now m place }
        ensures few { HasFewBits result }
    {
        let names = self.names(m);
        match self.entries[place] {
            Entry::Whole(_) => whole_run(names, self.number(m, place)),
            Entry::Bit(_, bit) => bit_run(names, self.number(m, place), bit),
            Entry::Part(_, select) => part_run(names, self.number(m, place), select),
            Entry::Constant(token) => Run {
                first: Bit::Tied,
                count: constant_width(token.of(self.bytes)) as usize,
            },
            _ => Run {
                first: Bit::Tied,
                count: 0,
            },
        }
    }

    /// How many bits are joined in a connection. It takes one pass over what is joined.
    pub(crate) fn bit_count(&self, m: usize, connection: ConnectionExtent) -> usize
        requires sound { AreTables self.now }
        requires within { m < length (modules_in self.now) }
        requires head { connection.place < connection.end }
        requires start { start_at self.now.places m < connection.place }
        requires end { connection.end ≤ start_at self.now.places (m + 1) }
        ensures { result ≡ length (bits_between self.now m (connection.place + 1) connection.end) }
    {
        let mut count = 0;
        for place in connection.place + 1..connection.end {
            count += self.run(m, place).count;
        }
        count
    }

    /// The bit of this number of a connection, if it has so many. It takes one pass over what is joined before the bit.
    pub(crate) fn bit(&self, m: usize, connection: ConnectionExtent, number: usize) -> Option<Bit>
        requires sound { AreTables self.now }
        requires within { m < length (modules_in self.now) }
        requires head { connection.place < connection.end }
        requires start { start_at self.now.places m < connection.place }
        requires end { connection.end ≤ start_at self.now.places (m + 1) }
        ensures { result ≡ slice_get (bits_between self.now m (connection.place + 1) connection.end) number }
    {
        let mut rest = number;
        for place in connection.place + 1..connection.end {
            let run = self.run(m, place);
            if rest < run.count {
                return Some(run.bit(rest));
            }
            rest -= run.count;
        }
        None
    }
}
