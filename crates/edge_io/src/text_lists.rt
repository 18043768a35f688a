ghost use Rattle.std.specs.Prelude.{◌≡◌, ℕ, List, [], ◌∷◌, ◌++◌, length, IsTrue, ◌↔◌, OnOk, OnErr, slice_get, option_copied};

use crate::failures::OutOfMemory;
use crate::lists::push;
use crate::texts::Text;
use std::alloc::Global;
use std::marker::Model;

/// Texts in order, as the words of a command line. Contracts see the list of the texts.
#[derive(Drop)]
pub struct TextList {
    texts: Vec<Text>,
}

impl Model for TextList {
    ghost Value = { List (List ℕ) };

    ghost view = { λ list. list.texts.items };
}

impl TextList {
    /// The empty list. It takes no memory.
    pub fn new(alloc: Global) -> TextList
        ensures { result ≡ [] }
    {
        TextList {
            texts: Vec::new(alloc),
        }
    }

    /// Puts a text at the end. Where memory is short the text is dropped.
    pub fn push(&mut self, text: Text) -> Result<(), OutOfMemory>
        ensures ok { OnOk result (self.new ≡ self.old ++ text ∷ []) }
        ensures err { OnErr result (self.new ≡ self.old) }
    {
        push(&mut self.texts, text)
    }

    /// How many texts there are.
    pub fn len(&self) -> usize
        ensures { result ≡ length self.now }
    {
        self.texts.len()
    }

    /// Whether there is no text.
    pub fn is_empty(&self) -> bool
        ensures { IsTrue result ↔ (self.now ≡ []) }
    {
        self.texts.is_empty()
    }

    /// The text at place `i`, counted from 0, or `None` past the end.
    pub fn get(&self, i: usize) -> Option<&Text>
        ensures { option_copied result ≡ slice_get self.now i }
    {
        self.texts.get(i)
    }

    /// All texts, in order.
    pub fn as_slice(&self) -> &[Text]
        ensures { result.now ≡ self.now }
    {
        self.texts.as_slice()
    }
}
