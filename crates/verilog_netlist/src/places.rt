//! Where the parts of a netlist begin among its entries: modules, instances of a module, connections of an instance.
ghost use Rattle.std.specs.Prelude.{◌≡◌, ℕ, ◌+◌, ◌-◌, ◌^◌, ◌<◌, ◌≤◌, List, length, IfOk, OnOk};
ghost use Rattle.verilog_netlist.specs.Namespaces.{begins_module, begins_instance};
ghost use Rattle.verilog_netlist.specs.Parts.{begins_connection};
ghost use Rattle.verilog_netlist.specs.NameRows.{start_at};
ghost use Rattle.verilog_netlist.specs.PartPlaces.{stretch, ArePlaces, IsPartAt, IsModuleExtent, IsInstanceExtent, AddsModule, AddsInstance, AddsConnection, AddsPlace};
ghost use Rattle.verilog_netlist.specs.declared.entries.Entry.{Entry};

use crate::entries::Entry;
use edge_io::OutOfMemory;
use edge_io::lists::{push, to_u32};
use std::alloc::Global;

/// Where a module begins, and how many instances and connections begin before it.
#[derive(Clone, Copy)]
pub struct ModuleRow {
    pub place: u32,
    pub instances: u32,
    pub connections: u32,
}

/// Where an instance begins, and how many connections begin before it.
#[derive(Clone, Copy)]
pub struct InstanceRow {
    pub place: u32,
    pub connections: u32,
}

/// The places of all modules, of all instances and of all connections, each in the order of the file. Behind the modules stands a
/// row for the end of the file.
#[derive(Drop)]
pub struct Places {
    pub modules: Vec<ModuleRow>,
    pub instances: Vec<InstanceRow>,
    pub connections: Vec<u32>,
}

/// Where a module begins and where it ends; its instances, by their numbers in the file; how many connections begin before its end.
#[derive(Clone, Copy)]
pub struct ModuleExtent {
    pub place: usize,
    pub end: usize,
    pub first_instance: usize,
    pub instances_end: usize,
    pub connections_end: usize,
}

/// Where an instance begins and where it ends, and its connections, by their numbers in the file.
#[derive(Clone, Copy)]
pub struct InstanceExtent {
    pub place: usize,
    pub end: usize,
    pub first_connection: usize,
    pub connections_end: usize,
}

/// Where a connection begins and where it ends.
#[derive(Clone, Copy)]
pub struct ConnectionExtent {
    pub place: usize,
    pub end: usize,
}

/// The entries from one place up to another.
#[inline]
pub(crate) fn between(entries: &[Entry], from: usize, end: usize) -> &[Entry]
    requires order { from ≤ end }
    requires within { end ≤ length entries.now }
    ensures { result.now ≡ stretch entries.now from end }
{
    entries.split_at(end).0.split_at(from).1
}

impl Places {
    /// Adds a module that begins at this place, or the end of the file.
    fn add_module(&mut self, place: usize) -> Result<(), OutOfMemory>
        ensures modules { OnOk result (AddsModule self.old place self.new) }
    {
        let place = to_u32(place)?;
        let instances = to_u32(self.instances.len())?;
        let connections = to_u32(self.connections.len())?;
        push(
            &mut self.modules,
            ModuleRow {
                place,
                instances,
                connections,
            },
        )
    }

    /// Adds an instance that begins at this place.
    fn add_instance(&mut self, place: usize) -> Result<(), OutOfMemory>
        ensures instances { OnOk result (AddsInstance self.old place self.new) }
    {
        let place = to_u32(place)?;
        let connections = to_u32(self.connections.len())?;
        push(&mut self.instances, InstanceRow { place, connections })
    }

    /// Adds a connection that begins at this place.
    fn add_connection(&mut self, place: usize) -> Result<(), OutOfMemory>
        ensures connections { OnOk result (AddsConnection self.old place self.new) }
    {
        let place = to_u32(place)?;
        push(&mut self.connections, place)
    }

    /// Adds the place of an entry, if a part begins there.
    fn add(&mut self, place: usize, entry: Entry) -> Result<(), OutOfMemory>
        ensures { OnOk result (AddsPlace self.old place entry self.new) }
    {
        match entry {
            Entry::Module(_) => self.add_module(place),
            Entry::Instance(_, _) => self.add_instance(place),
            Entry::Port(_) => self.add_connection(place),
            _ => Ok(()),
        }
    }

    /// Where the first module begins, or the end of the file where there is none.
    pub(crate) fn first_place(&self) -> usize
        ensures { 0 < length self.now.modules.items → result ≡ start_at self.now 0 }
    {
        match self.modules.first() {
            Some(row) => row.place as usize,
            None => 0,
        }
    }

    /// How many modules there are.
    #[inline]
    pub(crate) fn module_count(&self) -> usize
        ensures { result ≡ length self.now.modules.items - 1 }
    {
        self.modules.len().saturating_sub(1)
    }

    /// A module.
    #[inline]
    pub(crate) fn module(&self, m: usize) -> ModuleExtent
        requires { m + 1 < length self.now.modules.items }
        ensures start { result.place ≡ start_at self.now m }
        ensures end { result.end ≡ start_at self.now (m + 1) }
        ensures part { (entries : List Entry) → ArePlaces entries self.now
            → IsPartAt entries begins_module entries m result.place result.end }
        ensures extent { (entries : List Entry) → ArePlaces entries self.now → IsModuleExtent entries result }
    {
        let row = self.modules[m];
        let next = self.modules[m + 1];
        ModuleExtent {
            place: row.place as usize,
            end: next.place as usize,
            first_instance: row.instances as usize,
            instances_end: next.instances as usize,
            connections_end: next.connections as usize,
        }
    }

    /// An instance of a module.
    #[inline]
    pub(crate) fn instance(&self, within: ModuleExtent, k: usize) -> InstanceExtent
        requires place { within.first_instance + k < within.instances_end }
        requires known { within.instances_end ≤ length self.now.instances.items }
        ensures part { (entries : List Entry) → ArePlaces entries self.now → IsModuleExtent entries within
            → IsPartAt entries begins_instance (stretch entries (within.place + 1) within.end) k result.place result.end }
        ensures extent { (entries : List Entry) → ArePlaces entries self.now → IsModuleExtent entries within
            → IsInstanceExtent entries result }
        ensures inside { (entries : List Entry) → ArePlaces entries self.now → IsModuleExtent entries within
            → (within.place < result.place) × (result.end ≤ within.end) }
    {
        let number = within.first_instance + k;
        let row = self.instances[number];
        let (end, connections_end) = if number + 1 < within.instances_end {
            let next = self.instances[number + 1];
            (next.place as usize, next.connections as usize)
        } else {
            (within.end, within.connections_end)
        };
        InstanceExtent {
            place: row.place as usize,
            end,
            first_connection: row.connections as usize,
            connections_end,
        }
    }

    /// A connection of an instance.
    #[inline]
    pub(crate) fn connection(&self, instance: InstanceExtent, c: usize) -> ConnectionExtent
        requires place { instance.first_connection + c < instance.connections_end }
        requires within { instance.connections_end ≤ length self.now.connections.items }
        ensures part { (entries : List Entry) → ArePlaces entries self.now → IsInstanceExtent entries instance
            → IsPartAt entries begins_connection (stretch entries (instance.place + 1) instance.end) c result.place result.end }
        ensures inside { (entries : List Entry) → ArePlaces entries self.now → IsInstanceExtent entries instance
            → (instance.place < result.place) × (result.end ≤ instance.end) }
    {
        let number = instance.first_connection + c;
        let place = self.connections[number] as usize;
        let end = if number + 1 < instance.connections_end {
            self.connections[number + 1] as usize
        } else {
            instance.end
        };
        ConnectionExtent { place, end }
    }
}

/// Collects the places of all parts, in one pass.
pub(crate) fn collect_places(alloc: Global, entries: &[Entry]) -> Result<Places, OutOfMemory>
    ensures { IfOk result (ArePlaces entries.now) }
{
    let mut places = Places {
        modules: Vec::new(alloc),
        instances: Vec::new(alloc),
        connections: Vec::new(alloc),
    };
    for (place, entry) in entries.iter().enumerate() {
        places.add(place, *entry)?;
    }
    places.add_module(entries.len())?;
    Ok(places)
}
