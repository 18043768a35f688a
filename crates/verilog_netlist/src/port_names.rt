//! The ports that an instance names.
ghost use Rattle.std.specs.Prelude.{◌≡◌, [], IfOk, OnOk};
ghost use Rattle.std.specs.List.{list_any};
ghost use Rattle.std.specs.Str.{bytes_eq};
ghost use Rattle.indexmap.specs.IndexSet.{insert_key};

use crate::name_text::NameText;
use edge_io::lists::push;
use edge_io::{OutOfMemory, are_equal};
use indexmap::IndexSet;
use name_table::NameHash;
use std::alloc::Global;
use std::hash::Hash;
use std::marker::Model;

/// So many names stand in a list, which is searched through; those behind them stand in a table.
const FEW: usize = 8;

/// The ports of an instance, each once, in the order in which they came. Most instances have few, of which no hash is taken.
#[derive(Drop)]
pub struct PortNames<'a> {
    few: Vec<NameText<'a>>,
    // those behind the few
    others: IndexSet<NameText<'a>, NameHash>,
}

impl<'a> Model for PortNames<'a> {
    ghost use Rattle.std.specs.Prelude.{ℕ, List, ◌++◌};
    ghost use Rattle.verilog_netlist.specs.NameRows.{keys_of};

    ghost Value = { List (List ℕ) };

    ghost view = { λ ports. keys_of (ports.few.items ++ ports.others.keys) };
}

/// Whether a name stands in a list.
#[inline]
fn is_listed(list: &[NameText<'_>], name: &[u8]) -> bool
    ensures { result ≡ list_any (λ other. bytes_eq name.now other.bytes.now) list.now }
{
    for other in list {
        if are_equal(name, other.bytes) {
            return true;
        }
    }
    false
}

/// Empties a table. One that holds something is let go of, since to empty it would take as long as it is large.
#[inline]
fn empty_table<T: Eq + Hash + Drop>(alloc: Global, table: &mut IndexSet<T, NameHash>)
    ensures { table.new.keys ≡ [] }
{
    if !table.is_empty() {
        *table = IndexSet::with_hasher(alloc, NameHash::default());
    }
}

impl<'a> PortNames<'a> {
    /// No port. It takes no memory.
    pub(crate) fn new(alloc: Global) -> PortNames<'a>
        ensures { result ≡ [] }
    {
        PortNames {
            few: Vec::new(alloc),
            others: IndexSet::with_hasher(alloc, NameHash::default()),
        }
    }

    /// Lets go of all ports. The list keeps its memory.
    #[inline]
    pub(crate) fn clear(&mut self, alloc: Global)
        ensures { self.new ≡ [] }
    {
        self.few.clear();
        empty_table(alloc, &mut self.others);
    }

    /// Adds a port, and tells whether it was there.
    #[inline]
    pub(crate) fn add(&mut self, name: &'a [u8]) -> Result<bool, OutOfMemory>
        ensures held { IfOk result (λ held. held ≡ list_any (bytes_eq name.now) self.old) }
        ensures names { OnOk result (self.new ≡ insert_key bytes_eq self.old name.now) }
    {
        if is_listed(self.few.as_slice(), name) {
            return Ok(true);
        }
        if self.few.len() < FEW && self.others.is_empty() {
            push(&mut self.few, NameText { bytes: name })?;
            return Ok(false);
        }
        let Ok(is_new) = self.others.insert(NameText { bytes: name }) else {
            return Err(OutOfMemory);
        };
        Ok(!is_new)
    }
}
