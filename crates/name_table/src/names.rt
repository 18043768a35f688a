//! A table of names: distinct texts, each with its number.
ghost use Rattle.std.specs.Prelude.{◌≡◌, ◌≢◌, ℕ, ◌+◌, ◌<◌, ◌≤◌, ◌^◌, List, [], ◌∷◌, ◌++◌, length, IsTrue, ◌↔◌, IsOk, IfOk, OnOk, OnErr, IfSome, IfNone, Some, slice_get, Contains, map};
ghost use Rattle.name_table.specs.Names.{AreDistinct};

use edge_io::OutOfMemory;
use indexmap::IndexSet;
use std::alloc::Global;
use std::marker::Model;

/// The number of a text in a table of names, counted from 0.
#[derive(Clone, Copy)]
pub struct NameId(pub u32);

/// Distinct texts, numbered in the order in which they came. Contracts see the list of them.
#[derive(Drop)]
pub struct Names {
    texts: IndexSet<Vec<u8>>,
    alloc: Global,
}

impl Model for Names {
    ghost use Rattle.std.specs.Prelude.{ℕ, ◌≤◌, ◌^◌, List, length, map};
    ghost use Rattle.name_table.specs.Names.{AreDistinct};

    ghost Value = { List (List ℕ) };

    ghost view = { λ names. map (λ text. text.items) names.texts.keys };

    ghost invariant = { λ names. (length names.texts.keys ≤ 2 ^ 30) × AreDistinct (map (λ text. text.items) names.texts.keys) };
}

impl Names {
    /// The empty table. It takes no memory.
    pub fn new(alloc: Global) -> Names
        ensures { result ≡ [] }
    {
        Names {
            texts: IndexSet::new(alloc),
            alloc,
        }
    }

    /// The number of a text: its own where it is held, and else that of a new last text. Fewer than
    /// 2^30 texts are held before. A text that is held takes no memory.
    pub fn intern(&mut self, text: &[u8]) -> Result<NameId, OutOfMemory>
        requires room { length self.old < 2 ^ 30 }

        // The number is that of the text. A text that was held changes nothing, a new one goes last.
        ensures named { IfOk result (λ id. slice_get self.new id.0 ≡ Some text.now) }
        ensures held { Contains self.old text.now → IsOk result }
        ensures kept { Contains self.old text.now → self.new ≡ self.old }
        ensures added { ¬ Contains self.old text.now → OnOk result (self.new ≡ self.old ++ text.now ∷ []) }

        ensures err { OnErr result (self.new ≡ self.old) }
        ensures distinct { AreDistinct self.new }
    {
        if let Some(id) = self.find(text) {
            return Ok(id);
        }
        let key = Vec::from_slice(self.alloc, text)?;
        let place = add(&mut self.texts, key)?;
        Ok(NameId(place as u32))
    }

    /// The number of a text, or `None` where it is not held. It takes no memory.
    pub fn find(&self, text: &[u8]) -> Option<NameId>
        ensures found { IfSome result (λ id. slice_get self.now id.0 ≡ Some text.now) }
        ensures absent { IfNone result (¬ Contains self.now text.now) }
        ensures distinct { AreDistinct self.now }
    {
        let place = place_of(&self.texts, text)?;
        Some(NameId(place as u32))
    }

    /// No two texts are the same. It does nothing when it is called.
    pub fn distinct(&self)
        ensures { AreDistinct self.now }
    {
        let _ = &self.texts;
    }

    /// The text of a number, which is below `len`.
    pub fn text(&self, id: NameId) -> &[u8]
        requires held { id.0 < length self.now }
        ensures text { slice_get self.now id.0 ≡ Some result.now }
    {
        self.texts.as_slice()[id.0 as usize].as_slice()
    }

    /// How many texts there are, at most 2^30.
    pub fn len(&self) -> usize
        ensures len { result ≡ length self.now }
        ensures most { result ≤ 2 ^ 30 }
    {
        self.texts.len()
    }

    /// Whether there is no text.
    pub fn is_empty(&self) -> bool
        ensures { IsTrue result ↔ (self.now ≡ []) }
    {
        self.texts.is_empty()
    }
}

// The place of a text, if it is held.
fn place_of(texts: &IndexSet<Vec<u8>>, text: &[u8]) -> Option<usize>
    ensures found { IfSome result (λ place. slice_get (map (λ key. key.items) texts.now.keys) place ≡ Some text.now) }
    ensures within { IfSome result (λ place. place < length texts.now.keys) }
    ensures absent { IfNone result (¬ Contains (map (λ key. key.items) texts.now.keys) text.now) }
{
    let (place, _) = texts.get_full(text)?;
    Some(place)
}

// Puts a text at the end that is not held, and answers its place.
fn add(texts: &mut IndexSet<Vec<u8>>, text: Vec<u8>) -> Result<usize, OutOfMemory>
    requires absent { ¬ Contains (map (λ key. key.items) texts.old.keys) text.items }
    ensures named { IfOk result (λ place. slice_get (map (λ key. key.items) texts.new.keys) place ≡ Some text.items) }
    ensures within { IfOk result (λ place. place < length texts.new.keys) }
    ensures added { OnOk result (map (λ key. key.items) texts.new.keys ≡ map (λ key. key.items) texts.old.keys ++ text.items ∷ []) }
    ensures len { OnOk result (length texts.new.keys ≡ length texts.old.keys + 1) }
    ensures err { OnErr result (texts.new.keys ≡ texts.old.keys) }
    ensures distinct { AreDistinct (map (λ key. key.items) texts.new.keys) }
{
    let Ok((place, _)) = texts.insert_full(text) else {
        return Err(OutOfMemory);
    };
    Ok(place)
}
