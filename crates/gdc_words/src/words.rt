//! The words as they are handed in.
ghost use Rattle.std.specs.Prelude.{◌≡◌, List, [], ◌∷◌, ◌++◌, ℕ, OnOk, OnErr};

use edge_io::{OutOfMemory, Text};
use std::alloc::Global;
use std::marker::Model;

/// The words after the program's name. Contracts see a list of texts.
#[derive(Drop)]
pub struct Words {
    words: Vec<Text>,
}

impl Model for Words {
    ghost Value = { List (List ℕ) };

    ghost view = { λ w. w.words.items };
}

impl Words {
    /// No words yet. It takes no memory.
    pub fn new(alloc: Global) -> Words
        ensures { result ≡ [] }
    {
        Words {
            words: Vec::new(alloc),
        }
    }

    /// Puts a word at the end. Where memory runs out the word is dropped and the words stay as they were.
    pub fn push(&mut self, word: Text) -> Result<(), OutOfMemory>
        ensures ok { OnOk result (self.new ≡ self.old ++ word ∷ []) }
        ensures err { OnErr result (self.new ≡ self.old) }
    {
        match self.words.push(word) {
            Ok(()) => Ok(()),
            Err(_) => Err(OutOfMemory),
        }
    }

    /// The words, in order.
    pub fn as_slice(&self) -> &[Text]
        ensures { result.now ≡ self.now }
    {
        self.words.as_slice()
    }
}
