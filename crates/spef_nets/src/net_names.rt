//! The names of the nets of a file.
ghost use Rattle.std.specs.Prelude.{◌≡◌, ◌<◌, ℕ, true, false, length, map, slice_get, [], ◌∷◌, ◌++◌, Some, Contains, IfOk, IfSome, IfNone};
ghost use Rattle.std.specs.Cow.{cow_slice_items};
ghost use Rattle.name_table.specs.Names.{AreDistinct};

use crate::net_name::NetName;
use edge_io::OutOfMemory;
use indexmap::IndexSet;
use std::alloc::Global;
use std::borrow::CowSlice;
use std::marker::Model;

/// Distinct names, numbered in the order in which they came. Those that stand in the file as they are written are not copied. Contracts
/// see the list of them.
#[derive(Drop)]
pub struct NetNames<'r> {
    names: IndexSet<CowSlice<'r, u8>>,
}

impl<'r> Model for NetNames<'r> {
    ghost use Rattle.std.specs.Prelude.{ℕ, List, map};
    ghost use Rattle.std.specs.Cow.{cow_slice_items};
    ghost use Rattle.name_table.specs.Names.{AreDistinct};

    ghost Value = { List (List ℕ) };

    ghost view = { λ nets. map (λ name. cow_slice_items name) nets.names.keys };

    ghost invariant = { λ nets. AreDistinct (map (λ name. cow_slice_items name) nets.names.keys) };
}

impl<'r> NetNames<'r> {
    /// No name, with room for so many.
    pub fn with_room(alloc: Global, many: usize) -> Result<NetNames<'r>, OutOfMemory>
        ensures { IfOk result (λ nets. nets ≡ []) }
    {
        Ok(NetNames {
            names: IndexSet::with_capacity(alloc, many)?,
        })
    }

    /// Puts a name at the end, and tells whether it was not held before. It is one look-up.
    pub fn put(&mut self, alloc: Global, name: &NetName<'r>) -> Result<bool, OutOfMemory>
        ensures new { IfOk result (λ new. new ≡ true → ¬ Contains self.old name.now) }
        ensures added { IfOk result (λ new. new ≡ true → self.new ≡ self.old ++ name.now ∷ []) }
        ensures held { IfOk result (λ new. new ≡ false → Contains self.old name.now) }
    {
        let name = name.kept(alloc)?;
        add(&mut self.names, name)
    }

    /// The number of a name, if it is held. It takes no memory.
    pub fn find(&self, name: &[u8]) -> Option<usize>
        ensures found { IfSome result (λ place. slice_get self.now place ≡ Some name.now) }
        ensures within { IfSome result (λ place. place < length self.now) }
        ensures absent { IfNone result (¬ Contains self.now name.now) }
    {
        place_of(&self.names, name)
    }

    /// The name of a number.
    pub fn name(&self, place: usize) -> &[u8]
        requires { place < length self.now }
        ensures { slice_get self.now place ≡ Some result.now }
    {
        self.names.as_slice()[place].as_slice()
    }

    /// How many names there are.
    pub fn len(&self) -> usize
        ensures { result ≡ length self.now }
    {
        self.names.len()
    }
}

// The place of a name, if it is held.
fn place_of(names: &IndexSet<CowSlice<'_, u8>>, name: &[u8]) -> Option<usize>
    ensures found { IfSome result (λ place. slice_get (map (λ one. cow_slice_items one) names.now.keys) place ≡ Some name.now) }
    ensures within { IfSome result (λ place. place < length names.now.keys) }
    ensures absent { IfNone result (¬ Contains (map (λ one. cow_slice_items one) names.now.keys) name.now) }
{
    let (place, _) = names.get_full(name)?;
    Some(place)
}

// Puts a name at the end, and tells whether it was not held before.
fn add<'r>(
    names: &mut IndexSet<CowSlice<'r, u8>>,
    name: CowSlice<'r, u8>,
) -> Result<bool, OutOfMemory>
    ensures new { IfOk result (λ new. new ≡ true
        → ¬ Contains (map (λ one. cow_slice_items one) names.old.keys) (cow_slice_items name.entry)) }
    ensures added { IfOk result (λ new. new ≡ true
        → map (λ one. cow_slice_items one) names.new.keys
        ≡ map (λ one. cow_slice_items one) names.old.keys ++ cow_slice_items name.entry ∷ []) }
    ensures held { IfOk result (λ new. new ≡ false
        → Contains (map (λ one. cow_slice_items one) names.old.keys) (cow_slice_items name.entry)) }
    ensures distinct { AreDistinct (map (λ one. cow_slice_items one) names.new.keys) }
{
    let Ok((_, new)) = names.insert_full(name) else {
        return Err(OutOfMemory);
    };
    Ok(new)
}
