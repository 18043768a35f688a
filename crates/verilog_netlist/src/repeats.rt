//! Collects the names that must differ, and looks for one that stands twice.
ghost use Rattle.std.specs.Prelude.{◌≡◌, ◌+◌, ◌^◌, ◌<◌, [], length, IfOk, OnOk};
ghost use Rattle.token_texts.specs.Spans.{text_at};
ghost use Rattle.verilog_netlist.specs.Namespaces.{name_of, IsFirstRepeated, begins_module, begins_instance};
ghost use Rattle.verilog_netlist.specs.DeclaredNames.{AddsRanged, CoversRanged};
ghost use Rattle.verilog_netlist.specs.Firsts.{first_or};
ghost use Rattle.verilog_netlist.specs.NameKeys.{Key, code_of, keys_in, key_of, scope_in, holds, is_ports, keeps, ports_from, with_key, is_held, with_name, is_either_held, with_both, counted, HoldsNames};

use crate::entries::Entry;
use crate::name_text::NameText;
use crate::namespaces::Names;
use crate::port_names::PortNames;
use edge_io::OutOfMemory;
use indexmap::IndexSet;
use name_table::NameHash;
use std::alloc::Global;

/// What makes a name the one that it is: among which names it is, by their number, in which scope, and its text. The text comes last:
/// the hash of names puts those that differ in their last byte alone side by side.
#[derive(Clone, Copy, PartialEq, Eq, Hash)]
pub struct NameKey<'a> {
    pub code: u8,
    pub scope: u32,
    pub name: NameText<'a>,
}

/// How many modules and instances have begun.
#[derive(Clone, Copy)]
pub struct Scopes {
    pub modules: u32,
    pub instances: u32,
}

pub(crate) fn code_of(among: Names) -> u8
    ensures { result ≡ code_of among }
{
    match among {
        Names::Modules => 0,
        Names::Headers => 1,
        Names::Directions => 2,
        Names::Wires => 3,
        Names::Instances => 4,
        Names::Ports => 5,
    }
}

impl Scopes {
    /// Before the first entry.
    pub(crate) fn new() -> Scopes
        ensures modules { result.modules ≡ 0 }
        ensures instances { result.instances ≡ 0 }
    {
        Scopes {
            modules: 0,
            instances: 0,
        }
    }

    /// The scope in which such a name must be new.
    #[inline]
    pub(crate) fn of(self, among: Names) -> u32
        ensures { result ≡ scope_in among self }
    {
        match among {
            Names::Modules => 0,
            Names::Ports => self.instances,
            _ => self.modules,
        }
    }

    /// The scopes from this entry on.
    #[inline]
    pub(crate) fn from(self, entry: Entry) -> Scopes
        requires modules { self.modules + 1 < 2 ^ 32 }
        requires instances { self.instances + 1 < 2 ^ 32 }
        ensures { result ≡ counted self entry }
    {
        Scopes {
            modules: if entry.begins_module() {
                self.modules + 1
            } else {
                self.modules
            },
            instances: if entry.begins_instance() {
                self.instances + 1
            } else {
                self.instances
            },
        }
    }
}

/// Adds a name among others, and tells whether it was there.
fn add_key<'a>(
    keys: &mut IndexSet<NameKey<'a>, NameHash>,
    among: Names,
    scopes: Scopes,
    name: &'a [u8],
) -> Result<bool, OutOfMemory>
    ensures held { IfOk result (λ held. held ≡ holds (keys_in keys.old.keys) (key_of among scopes name.now)) }
    ensures keys { OnOk result ((key : Key) → holds (keys_in keys.new.keys) key
        ≡ with_key (holds (keys_in keys.old.keys)) (key_of among scopes name.now) key) }
{
    let key = NameKey {
        code: code_of(among),
        scope: scopes.of(among),
        name: NameText { bytes: name },
    };
    match keys.insert_full(key) {
        Ok((_, is_new)) => Ok(!is_new),
        Err(_) => Err(OutOfMemory),
    }
}

/// Adds the name of an entry that declares it with a range.
fn add_ranged<'a>(
    ranged: &mut IndexSet<NameKey<'a>, NameHash>,
    scopes: Scopes,
    bytes: &'a [u8],
    entry: Entry,
) -> Result<(), OutOfMemory>
    ensures { OnOk result (AddsRanged bytes.now scopes.modules entry (keys_in ranged.old.keys) (keys_in ranged.new.keys)) }
{
    match entry {
        Entry::Declared(_, name, Some(_)) => {
            add_key(ranged, Names::Wires, scopes, name.of(bytes))?;
            Ok(())
        }
        _ => Ok(()),
    }
}

#[inline]
fn is_ports(among: Names) -> bool
    ensures { result ≡ is_ports among }
{
    matches!(among, Names::Ports)
}

// What was found before this place, or this place if it is one.
#[inline]
fn first_or(found: Option<usize>, place: usize, here: bool) -> Option<usize>
    ensures { result ≡ first_or found place here }
{
    match found {
        Some(before) => Some(before),
        None if here => Some(place),
        None => None,
    }
}

/// The names before a place: the ports of the instance there, and all other names.
#[derive(Drop)]
pub struct NamesSoFar<'a> {
    pub keys: IndexSet<NameKey<'a>, NameHash>,
    pub ports: PortNames<'a>,
}

impl<'a> NamesSoFar<'a> {
    /// No name, where so many entries are to be read. The table grows where they have more names than most have: to count them would take
    /// a pass of its own.
    pub(crate) fn new(alloc: Global, entries: usize) -> Result<NamesSoFar<'a>, OutOfMemory>
        ensures keys { IfOk result (λ names. names.keys.keys ≡ []) }
        ensures ports { IfOk result (λ names. names.ports ≡ []) }
    {
        let keys = IndexSet::with_capacity_and_hasher(alloc, entries / 4, NameHash::default())?;
        Ok(NamesSoFar {
            keys,
            ports: PortNames::new(alloc),
        })
    }

    /// Comes to this entry. The ports of an instance belong to no other one.
    #[inline]
    fn come_to(&mut self, alloc: Global, entry: Entry)
        ensures keys { self.new.keys ≡ self.old.keys }
        ensures ports { self.new.ports ≡ ports_from entry self.old.ports }
    {
        if entry.begins_instance() {
            self.ports.clear(alloc);
        }
    }

    /// Adds the name of an entry, if it is among names that must differ, and tells whether it was there.
    #[inline(always)]
    fn add(
        &mut self,
        bytes: &'a [u8],
        entry: Entry,
        among: Option<Names>,
        scopes: Scopes,
    ) -> Result<bool, OutOfMemory>
        ensures held { IfOk result (λ held. held ≡ is_held among scopes (text_at bytes.now (name_of entry))
            (keeps scopes.instances (keys_in self.old.keys.keys) self.old.ports)) }
        ensures names { OnOk result ((key : Key) → keeps scopes.instances (keys_in self.new.keys.keys) self.new.ports key
            ≡ with_name among scopes (text_at bytes.now (name_of entry))
            (keeps scopes.instances (keys_in self.old.keys.keys) self.old.ports) key) }
    {
        let Some(among) = among else {
            return Ok(false);
        };
        let name = entry.name().of(bytes);
        if is_ports(among) {
            let is_held = self.ports.add(name)?;
            return Ok(is_held);
        }
        let is_held = add_key(&mut self.keys, among, scopes, name)?;
        Ok(is_held)
    }

    /// Comes to this entry, adds its name as one of those of its header and as its own, and tells whether it was there.
    #[inline(always)]
    fn take(
        &mut self,
        alloc: Global,
        bytes: &'a [u8],
        entry: Entry,
        scopes: Scopes,
    ) -> Result<bool, OutOfMemory>
        ensures held { IfOk result (λ held. held ≡ is_either_held entry scopes (text_at bytes.now (name_of entry))
            (keeps scopes.instances (keys_in self.old.keys.keys) (ports_from entry self.old.ports))) }
        ensures names { OnOk result ((key : Key) → keeps scopes.instances (keys_in self.new.keys.keys) self.new.ports key
            ≡ with_both entry scopes (text_at bytes.now (name_of entry))
            (keeps scopes.instances (keys_in self.old.keys.keys) (ports_from entry self.old.ports)) key) }
    {
        self.come_to(alloc, entry);
        let in_header = self.add(bytes, entry, entry.header_names(), scopes)?;
        let by_own = self.add(bytes, entry, entry.own_names(), scopes)?;
        let is_held = in_header || by_own;
        Ok(is_held)
    }

    /// Takes all entries where none was taken before, and tells the place of the first whose name was there. The names that are declared
    /// with a range go into a table of their own. It takes time in proportion to the bytes of the names.
    pub(crate) fn take_all(
        &mut self,
        alloc: Global,
        bytes: &'a [u8],
        entries: &[Entry],
        ranged: &mut IndexSet<NameKey<'a>, NameHash>,
    ) -> Result<Option<usize>, OutOfMemory>
        requires few { length entries.now < 2 ^ 30 }
        requires keys { self.old.keys.keys ≡ [] }
        requires ports { self.old.ports ≡ [] }
        requires ranged { ranged.old.keys ≡ [] }
        ensures repeated { IfOk result (IsFirstRepeated bytes.now entries.now) }
        ensures keys { OnOk result (HoldsNames bytes.now entries.now (length entries.now) (keys_in self.new.keys.keys)) }
        ensures ranged { OnOk result (CoversRanged bytes.now entries.now (length entries.now) (keys_in ranged.new.keys)) }
    {
        let mut repeated = None;
        let mut scopes = Scopes::new();
        for (place, entry) in entries.iter().enumerate() {
            scopes = scopes.from(*entry);
            let is_held = self.take(alloc, bytes, *entry, scopes)?;
            repeated = first_or(repeated, place, is_held);
            add_ranged(ranged, scopes, bytes, *entry)?;
        }
        Ok(repeated)
    }
}
