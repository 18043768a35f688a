//! The spellings of references, each numbered by its place.
ghost use Rattle.std.specs.Prelude.{◌≡◌, ℕ, ◌+◌, ◌<◌, true, [], ◌∷◌, ◌++◌, List, length, slice_get, Some, IfOk, OnOk, IfSome};
ghost use Rattle.spef_nets.specs.Refs.{words_at};

use crate::node_table::MANY;
use edge_io::lists::{empty, push};
use edge_io::{OutOfMemory, are_equal};
use spef_text::SpefFile;
use std::alloc::Global;
use std::marker::Model;

/// So many spellings at the front are looked through: those of a small net, or of a large one its first, which is the driver's as a rule.
const FEW: usize = 8;

const FIRST: usize = 2;

/// Spellings, numbered in the order in which they came. Each is held by a token of a file, whose text it is: that takes 4 bytes where
/// the text itself would take 16. Contracts see the list of the tokens. Where a spelling is not found, that does not say that it is not
/// held: the node that it names tells.
#[derive(Drop)]
pub struct Spellings {
    tokens: Vec<u32>,
    // how many at the front are looked through
    front: usize,
    // the place that was answered last
    last: usize,
}

impl Model for Spellings {
    ghost use Rattle.std.specs.Prelude.{ℕ, List};

    ghost Value = { List ℕ };

    ghost view = { λ s. s.tokens.items };
}

impl Spellings {
    /// No spelling. It takes no memory.
    pub fn new(alloc: Global) -> Spellings
        ensures { result ≡ [] }
    {
        Spellings {
            tokens: Vec::new(alloc),
            front: FEW,
            last: 0,
        }
    }

    /// Lets go of all spellings, and makes room for so many. The list keeps its memory.
    pub fn empty(&mut self, many: usize) -> Result<(), OutOfMemory>
        ensures { OnOk result (self.new ≡ []) }
    {
        empty(&mut self.tokens, many)?;
        self.front = if many < MANY { FEW } else { FIRST };
        self.last = 0;
        Ok(())
    }

    /// How many spellings there are.
    pub fn len(&self) -> usize
        ensures { result ≡ length self.now }
    {
        self.tokens.len()
    }

    /// The token of a spelling.
    pub fn token(&self, number: usize) -> u32
        requires { number < length self.now }
        ensures { slice_get self.now number ≡ Some result }
    {
        self.tokens[number]
    }

    /// The number of a spelling, where it is the last one that was answered or the one behind it, or stands among the first few: the
    /// connections, the capacitances and the resistors of a net name its nodes in one order, as a rule.
    pub fn find(&mut self, file: &SpefFile<'_>, word: &[u8]) -> Option<usize>
        ensures found { IfSome result (λ number. slice_get (words_at file.now self.old) number ≡ Some word.now) }
        ensures same { self.new ≡ self.old }
    {
        let next = self.last.saturating_add(1);
        if stands_at(file, &self.tokens, self.last, word) {
            Some(self.last)
        } else if stands_at(file, &self.tokens, next, word) {
            self.last = next;
            Some(next)
        } else {
            place_among(file, &self.tokens, self.front, word)
        }
    }

    /// The same where it has this number.
    pub fn find_at(&mut self, file: &SpefFile<'_>, number: usize, word: &[u8]) -> bool
        ensures found { result ≡ true → slice_get (words_at file.now self.old) number ≡ Some word.now }
        ensures same { self.new ≡ self.old }
    {
        if stands_at(file, &self.tokens, number, word) {
            self.last = number;
            true
        } else {
            false
        }
    }

    /// Puts the spelling of a token at the end.
    pub fn add(&mut self, token: u32) -> Result<(), OutOfMemory>
        ensures added { OnOk result (self.new ≡ self.old ++ token ∷ []) }
    {
        self.last = self.tokens.len();
        push(&mut self.tokens, token)
    }
}

// The place of a spelling at the front of a list, if it stands there.
fn place_among(file: &SpefFile<'_>, tokens: &[u32], front: usize, word: &[u8]) -> Option<usize>
    ensures { IfSome result (λ place. slice_get (words_at file.now tokens.now) place ≡ Some word.now) }
{
    for place in 0..tokens.len().min(front) {
        if are_equal(file.text_of(tokens[place] as u64), word) {
            return Some(place);
        }
    }
    None
}

// Whether a spelling has this number.
fn stands_at(file: &SpefFile<'_>, tokens: &[u32], number: usize, word: &[u8]) -> bool
    ensures { result ≡ true → slice_get (words_at file.now tokens.now) number ≡ Some word.now }
{
    number < tokens.len() && are_equal(file.text_of(tokens[number] as u64), word)
}
