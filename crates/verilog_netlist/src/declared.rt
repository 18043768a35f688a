//! The first declarations of the names that are declared with a range.
ghost use Rattle.std.specs.Prelude.{◌≡◌, ◌^◌, ◌<◌, [], length, IfOk, OnOk};
ghost use Rattle.verilog_netlist.specs.NameKeys.{key_in, keys_in, holds};
ghost use Rattle.verilog_netlist.specs.DeclaredNames.{declared_key, found_in, widened, AddsRow, AddsDeclared, CoversRanged, HoldsRanged, BoundsWidths};

use crate::entries::{Decl, Entry, Range};
use crate::name_text::NameText;
use crate::namespaces::Names;
use crate::ranges::whole_bits;
use crate::repeats::{NameKey, Scopes, code_of};
use edge_io::OutOfMemory;
use indexmap::{IndexMap, IndexSet};
use name_table::NameHash;
use std::alloc::Global;

/// What declares a name, and its range.
#[derive(Clone, Copy)]
pub struct Declaration {
    pub by: Decl,
    pub range: Option<Range>,
}

/// The names of all modules that are declared with a range, by a direction or by `wire`, each with its first declaration. That of any
/// other name has no range, and nothing more is asked of it. Most wires are such names, and a table of them all would be large.
#[derive(Drop)]
pub struct DeclaredNames<'a> {
    pub rows: IndexMap<NameKey<'a>, Declaration, NameHash>,
    /// No name has more bits than this, and no undeclared one.
    pub widest: u64,
}

/// A name that is declared in the module of this number.
#[inline]
fn declared_key(scope: u32, name: &[u8]) -> NameKey<'_>
    ensures { key_in result ≡ declared_key scope name.now }
{
    NameKey {
        code: code_of(Names::Wires),
        scope,
        name: NameText { bytes: name },
    }
}

/// Whether a name of the module of this number is among these.
#[inline]
fn is_among(keys: &IndexSet<NameKey<'_>, NameHash>, scope: u32, name: &[u8]) -> bool
    ensures { result ≡ holds (keys_in keys.now.keys) (declared_key scope name.now) }
{
    let key = declared_key(scope, name);
    keys.contains(&key)
}

impl<'a> DeclaredNames<'a> {
    /// No name, with room for so many.
    pub(crate) fn new(alloc: Global, many: usize) -> Result<DeclaredNames<'a>, OutOfMemory>
        ensures rows { IfOk result (λ names. names.rows.entries ≡ []) }
        ensures widest { IfOk result (λ names. names.widest ≡ 1) }
    {
        let rows = IndexMap::with_capacity_and_hasher(alloc, many, NameHash::default())?;
        Ok(DeclaredNames { rows, widest: 1 })
    }

    /// The first declaration of a name in the module of this number, if the name is kept.
    #[inline]
    pub(crate) fn find(&self, scope: u32, name: &[u8]) -> Option<Declaration>
        ensures { result ≡ found_in self.now.rows.entries scope name.now }
    {
        // No hash is taken where no name is kept, as in a netlist without a range.
        if self.rows.is_empty() {
            return None;
        }
        let key = declared_key(scope, name);
        self.rows.get(&key).copied()
    }

    /// Adds a declaration, if it is the first of its name.
    fn add(
        &mut self,
        scope: u32,
        name: &'a [u8],
        declaration: Declaration,
    ) -> Result<(), OutOfMemory>
        ensures rows { OnOk result (AddsRow self.old.rows.entries self.new.rows.entries (declared_key scope name.now) declaration) }
        ensures widest { self.new.widest ≡ self.old.widest }
    {
        let key = declared_key(scope, name);
        let Ok(before) = self.rows.insert(key, declaration) else {
            return Err(OutOfMemory);
        };
        // Few names are declared twice. Of one that is the first declaration goes back.
        let Some(first) = before else {
            return Ok(());
        };
        match self.rows.insert(key, first) {
            Ok(_) => Ok(()),
            Err(_) => Err(OutOfMemory),
        }
    }

    /// Adds what an entry of this module declares, if its name is among those with a range.
    fn add_entry(
        &mut self,
        ranged: &IndexSet<NameKey<'_>, NameHash>,
        scope: u32,
        bytes: &'a [u8],
        entry: Entry,
    ) -> Result<(), OutOfMemory>
        ensures rows { OnOk result (AddsDeclared bytes.now (keys_in ranged.now.keys) scope entry
            self.old.rows.entries self.new.rows.entries) }
        ensures widest { OnOk result (self.new.widest ≡ widened bytes.now entry self.old.widest) }
    {
        match entry {
            Entry::Declared(by, name, range) => {
                self.widest = self.widest.max(whole_bits(bytes, range));
                let text = name.of(bytes);
                if is_among(ranged, scope, text) {
                    self.add(scope, text, Declaration { by, range })
                } else {
                    Ok(())
                }
            }
            _ => Ok(()),
        }
    }

    /// Adds the first declarations of the names of these keys, where none was added before. It takes time in proportion to the bytes of
    /// the names.
    pub(crate) fn add_all(
        &mut self,
        ranged: &IndexSet<NameKey<'_>, NameHash>,
        bytes: &'a [u8],
        entries: &[Entry],
    ) -> Result<(), OutOfMemory>
        requires few { length entries.now < 2 ^ 30 }
        requires ranged { CoversRanged bytes.now entries.now (length entries.now) (keys_in ranged.now.keys) }
        requires rows { self.old.rows.entries ≡ [] }
        requires widest { self.old.widest ≡ 1 }
        ensures rows { OnOk result (HoldsRanged bytes.now entries.now self.new.rows.entries) }
        ensures widest { OnOk result (BoundsWidths bytes.now self.new.rows.entries self.new.widest) }
    {
        let many = ranged.len();
        if many == 0 {
            return Ok(());
        }
        let mut scopes = Scopes::new();
        for (place, entry) in entries.iter().enumerate() {
            scopes = scopes.from(*entry);
            self.add_entry(ranged, scopes.modules, bytes, *entry)?;
        }
        Ok(())
    }
}
