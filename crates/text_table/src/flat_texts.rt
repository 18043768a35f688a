//! Texts in one table of bytes, where a text takes no memory of its own beyond its bytes and its place.
ghost use Rattle.std.specs.Prelude.{◌≡◌, ℕ, ◌<◌, List, [], ◌∷◌, ◌++◌, length, slice_get, Some, IfOk, OnOk, OnErr};

use edge_io::OutOfMemory;
use edge_io::lists::{push, to_u32};
use std::alloc::Global;
use std::marker::Model;
use token_texts::Span;

/// Texts, numbered in the order in which they came. Contracts see the list of them. A text behind more than 2^32 - 1 bytes, or
/// behind as many texts, is a want of memory.
#[derive(Drop)]
pub struct FlatTexts {
    bytes: Vec<u8>,
    /// the place of each text in `bytes`
    pieces: Vec<Span>,
}

impl Model for FlatTexts {
    ghost use Rattle.std.specs.Prelude.{ℕ, List, length};
    ghost use Rattle.text_table.specs.FlatTexts.{texts_of, AreWithin};

    ghost Value = { List (List ℕ) };

    ghost view = { λ t. texts_of t.bytes.items t.pieces.items };

    ghost invariant = { λ t. AreWithin (length t.bytes.items) t.pieces.items };
}

// Puts three pieces of a text at the end. Where memory is short some of them may be there.
fn extend(bytes: &mut Vec<u8>, path: &[u8], name: &[u8], suffix: &[u8]) -> Result<(), OutOfMemory>
    ensures ok { OnOk result (bytes.new.items ≡ bytes.old.items ++ (path.now ++ name.now ++ suffix.now)) }
    ensures kept { (more : List ℕ) × (bytes.new.items ≡ bytes.old.items ++ more) }
{
    bytes.extend_from_slice(path)?;
    bytes.extend_from_slice(name)?;
    bytes.extend_from_slice(suffix)?;
    Ok(())
}

// Puts two pieces of a text at the end, with a byte between them. Where memory is short some of them may be there.
fn extend_parted(
    bytes: &mut Vec<u8>,
    front: &[u8],
    divider: u8,
    back: &[u8],
) -> Result<(), OutOfMemory>
    ensures ok { OnOk result (bytes.new.items ≡ bytes.old.items ++ (front.now ++ divider ∷ back.now)) }
    ensures kept { (more : List ℕ) × (bytes.new.items ≡ bytes.old.items ++ more) }
{
    bytes.extend_from_slice(front)?;
    push(bytes, divider)?;
    bytes.extend_from_slice(back)?;
    Ok(())
}

impl FlatTexts {
    /// No text yet. It takes no memory.
    pub fn new(alloc: Global) -> FlatTexts
        ensures { result ≡ [] }
    {
        FlatTexts {
            bytes: Vec::new(alloc),
            pieces: Vec::new(alloc),
        }
    }

    /// No text yet, with room for so many, of 16 bytes each: few are longer.
    pub fn with_room(alloc: Global, many: usize) -> Result<FlatTexts, OutOfMemory>
        ensures { IfOk result (λ texts. texts ≡ []) }
    {
        let bytes = Vec::with_capacity(alloc, many.saturating_mul(16))?;
        let pieces = Vec::with_capacity(alloc, many)?;
        Ok(FlatTexts { bytes, pieces })
    }

    /// Puts a text of three pieces at the end. Where memory is missing the texts stay as they were.
    pub fn push_joined(
        &mut self,
        path: &[u8],
        name: &[u8],
        suffix: &[u8],
    ) -> Result<(), OutOfMemory>
        ensures ok { OnOk result (self.new ≡ self.old ++ (path.now ++ name.now ++ suffix.now) ∷ []) }
        ensures err { OnErr result (self.new ≡ self.old) }
    {
        let start = to_u32(self.bytes.len())?;
        extend(&mut self.bytes, path, name, suffix)?;
        let len = to_u32(self.bytes.len())? - start;
        push(&mut self.pieces, Span { start, len })?;
        Ok(())
    }

    /// Puts a text at the end: a path and a name. In the top module the path is empty. Where memory is missing the texts stay as they
    /// were.
    pub fn push(&mut self, path: &[u8], name: &[u8]) -> Result<(), OutOfMemory>
        ensures ok { OnOk result (self.new ≡ self.old ++ (path.now ++ name.now) ∷ []) }
        ensures err { OnErr result (self.new ≡ self.old) }
    {
        if path.is_empty() {
            self.add(name)?;
            return Ok(());
        }
        self.push_joined(path, name, b"")
    }

    /// Puts a copy of a text at the end, and says its number. Where memory is missing the texts stay as they were.
    pub fn add(&mut self, text: &[u8]) -> Result<u32, OutOfMemory>
        ensures number { IfOk result (λ number. number ≡ length self.old) }
        ensures ok { OnOk result (self.new ≡ self.old ++ text.now ∷ []) }
        ensures err { OnErr result (self.new ≡ self.old) }
    {
        let number = to_u32(self.pieces.len())?;
        let start = to_u32(self.bytes.len())?;
        let len = to_u32(text.len())?;
        self.bytes.extend_from_slice(text)?;
        push(&mut self.pieces, Span { start, len })?;
        Ok(number)
    }

    /// Puts a text of two pieces with a byte between them at the end, and says its number. Where memory is missing the texts stay as they
    /// were.
    pub fn add_parted(&mut self, front: &[u8], divider: u8, back: &[u8]) -> Result<u32, OutOfMemory>
        ensures number { IfOk result (λ number. number ≡ length self.old) }
        ensures ok { OnOk result (self.new ≡ self.old ++ (front.now ++ divider ∷ back.now) ∷ []) }
        ensures err { OnErr result (self.new ≡ self.old) }
    {
        let many = to_u32(self.pieces.len())?;
        let start = to_u32(self.bytes.len())?;
        extend_parted(&mut self.bytes, front, divider, back)?;
        let len = to_u32(self.bytes.len())? - start;
        push(&mut self.pieces, Span { start, len })?;
        Ok(many)
    }

    /// How many texts there are.
    #[inline]
    pub fn len(&self) -> usize
        ensures { result ≡ length self.now }
    {
        self.pieces.len()
    }

    /// A text by its number.
    #[inline]
    pub fn text(&self, i: usize) -> &[u8]
        requires { i < length self.now }
        ensures { slice_get self.now i ≡ Some result.now }
    {
        self.pieces[i].of(self.bytes.as_slice())
    }
}
