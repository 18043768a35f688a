ghost use Rattle.std.specs.Prelude.{◌≡◌, ◌≢◌, ℕ, ◌+◌, ◌^◌, ◌≤◌, ◌<◌, ◌⊎◌, [], ◌∷◌, ◌++◌, ◌↔◌, List, length, take, drop, min, Option, Some, None, Ok, is_some, if◌then◌else◌, nat_lt, ◌&&◌, IsTrue, IsErr, IfOk, OnOk, OnErr};
ghost use Rattle.edge_io.specs.Counts.{Rose, RoseBy, raised};
ghost use Rattle.edge_io.specs.Holding.{TakesFront};
ghost use Rattle.edge_io.specs.Calls.{Calls, fails_next, counted_call};
ghost use Rattle.edge_io.specs.HeldFiles.{held_in, left_of, IsOpen, IsPlaceOf};
ghost use Rattle.edge_io.specs.MemShelf.{ShelfState, empty_shelf, ChangesHeld};

use crate::calls::{CallPlan, next};
use crate::failures::{Failed, OutOfMemory};
use crate::lists::push;
use crate::shelves::Shelf;
use crate::texts::Text;
use std::alloc::Global;
use std::marker::Model;

/// A file of a shelf in memory.
#[derive(Drop)]
struct HeldFile {
    name: Text,
    bytes: Text,
}

/// A shelf in memory, to try a program with: it tells everything, gives at most so many bytes in a
/// read, and fails at the calls that it was told to fail at.
///
/// Calls are counted from 1, over `open` and `read` together.
#[derive(Drop)]
pub struct MemShelf {
    files: Vec<HeldFile>,
    opened: Option<usize>,
    at: usize,
    most: usize,
    plan: CallPlan,
    opens: u64,
    reads: u64,
}

impl Model for MemShelf {
    ghost use Rattle.std.specs.Prelude.{◌≤◌};
    ghost use Rattle.edge_io.specs.MemShelf.{ShelfState};
    ghost use Rattle.edge_io.specs.HeldFiles.{left_of, IsOpen};

    ghost Value = { ShelfState };

    ghost view = { λ shelf. record {
      files = shelf.files.items;
      left = left_of shelf.files.items shelf.opened shelf.at;
      most = shelf.most;
      calls = shelf.plan;
      opens = shelf.opens;
      reads = shelf.reads;
    } };

    ghost invariant = { λ shelf. IsOpen shelf.files.items shelf.opened shelf.at × (1 ≤ shelf.most) };
}

impl MemShelf {
    /// A shelf that holds nothing yet, of which a read gives at most `most` bytes. It takes no memory.
    pub fn new(alloc: Global, most: usize) -> MemShelf
        requires { 1 ≤ most }
        ensures { result ≡ empty_shelf most }
    {
        MemShelf {
            files: Vec::new(alloc),
            opened: None,
            at: 0,
            most,
            plan: CallPlan::new(alloc),
            opens: 0,
            reads: 0,
        }
    }

    /// Holds the bytes under the name, in place of those that it had. What is left of an open file
    /// stays. Where memory is short both texts are dropped.
    #[tactic(auto, using(crate::proofs::Places::puts_last, crate::proofs::Places::left_of_push))]
    pub fn put(&mut self, name: Text, held: Text) -> Result<(), OutOfMemory>
        ensures ok { OnOk result (ChangesHeld self.old self.new name held) }
        ensures err { OnErr result (self.new ≡ self.old) }
    {
        push(&mut self.files, HeldFile { name, bytes: held })
    }

    /// The call of this number is to fail too.
    pub fn fail_at(&mut self, call: u64) -> Result<(), OutOfMemory>
        ensures ok { OnOk result (self.new ≡ record self.old
            { calls = record self.old.calls { failing = self.old.calls.failing ++ call ∷ [] } }) }
        ensures err { OnErr result (self.new ≡ self.old) }
    {
        self.plan.fail_at(call)
    }
}

/// Where the file of that name stands, if there is one.
fn place_of(files: &[HeldFile], name: &[u8]) -> Option<usize>
    ensures { IsPlaceOf files.now name.now result }
{
    let mut found = None;
    for (place, file) in files.iter().enumerate() {
        if file.name.bytes() == name {
            found = Some(place);
        }
    }
    found
}

/// Copies the front of `left` to the front of the piece, as much as there is, as has room, and at
/// most `most` bytes.
fn copy_front(piece: &mut [u8], left: &[u8], most: usize) -> usize
    ensures count { result ≡ min most (min (length piece.old) (length left.now)) }
    ensures copied { take result piece.new ≡ take result left.now }
{
    let count = most.min(piece.len().min(left.len()));
    piece[..count].copy_from_slice(&left[..count]);
    count
}

/// Copies the front of what is left of the file at `place`, of which `at` bytes were read.
fn copy_from(files: &[HeldFile], place: usize, at: usize, piece: &mut [u8], most: usize) -> usize
    requires open { IsOpen files.now (Some place) at }
    requires most { 1 ≤ most }
    ensures count { result ≡ min most (min (length piece.old) (length (left_of files.now (Some place) at))) }
    ensures within { IsOpen files.now (Some place) (at + result) }
    ensures fits { at + result < 2 ^ 64 }
    ensures taken { TakesFront result piece.new (left_of files.now (Some place) at) (left_of files.now (Some place) (at + result)) }
{
    copy_front(piece, &files[place].bytes.bytes()[at..], most)
}

impl Shelf for MemShelf {
    ghost held = { λ shelf. Some (held_in shelf.files) };

    ghost left = { λ shelf. Some shelf.left };

    ghost faults = { λ shelf. shelf.calls.faults };

    ghost opens = { λ shelf. shelf.opens };

    ghost reads = { λ shelf. shelf.reads };

    fn open(&mut self, name: &Text) -> Result<(), Failed>
        ensures held { self.new.files ≡ self.old.files }
        ensures most { self.new.most ≡ self.old.most }
        ensures opens { self.new.opens ≡ raised 1 self.old.opens }
        ensures reads { self.new.reads ≡ self.old.reads }
        ensures left { OnOk result (held_in self.old.files name.now ≡ Some self.new.left) }
        ensures unchanged { OnErr result (self.new.left ≡ self.old.left) }
        ensures later { self.old.calls.faults ≤ self.new.calls.faults }
        ensures cause { OnErr result (Rose self.old.calls.faults self.new.calls.faults ⊎ (held_in self.old.files name.now ≡ None)) }

        // It fails exactly at the calls that are to fail and where the name is not held; the count
        // of faults rises exactly in the first case.
        ensures fails { IsErr result ↔ (IsTrue (fails_next self.old.calls) ⊎ (held_in self.old.files name.now ≡ None)) }
        ensures calls { self.new.calls ≡ counted_call (fails_next self.old.calls) self.old.calls }
    {
        self.opens = next(self.opens);
        if self.plan.begin() {
            self.plan.fault();
            return Err(Failed);
        }
        match place_of(self.files.as_slice(), name.bytes()) {
            None => Err(Failed),
            Some(place) => {
                self.opened = Some(place);
                self.at = 0;
                Ok(())
            }
        }
    }

    fn read(&mut self, piece: &mut [u8]) -> Result<usize, Failed>
        ensures files { self.new.files ≡ self.old.files }
        ensures most { self.new.most ≡ self.old.most }
        ensures opens { self.new.opens ≡ self.old.opens }
        ensures reads { self.new.reads ≡ raised 1 self.old.reads }
        ensures count { IfOk result (λ count. count ≡ min self.old.most (min (length piece.old) (length self.old.left))) }
        ensures bound { IfOk result (λ count. count ≤ length piece.new) }
        ensures left { IfOk result (λ count. TakesFront count piece.new self.old.left self.new.left) }
        ensures empty { length piece.old ≡ 0 → result ≡ Ok 0 }
        ensures unchanged { OnErr result (self.new.left ≡ self.old.left) }
        ensures later { self.old.calls.faults ≤ self.new.calls.faults }
        ensures cause { OnErr result (Rose self.old.calls.faults self.new.calls.faults) }

        // It fails exactly at the calls that are to fail, other than one of an empty piece, and the
        // count of faults rises exactly there.
        ensures fails { IsErr result ↔ ((0 < length piece.old) × IsTrue (fails_next self.old.calls)) }
        ensures calls { self.new.calls ≡ counted_call (nat_lt 0 (length piece.old) && fails_next self.old.calls) self.old.calls }
    {
        self.reads = next(self.reads);
        let fails = self.plan.begin();
        if piece.is_empty() {
            return Ok(0);
        }
        if fails {
            self.plan.fault();
            return Err(Failed);
        }
        match self.opened {
            None => Ok(0),
            Some(place) => {
                let count = copy_from(self.files.as_slice(), place, self.at, piece, self.most);
                self.at += count;
                Ok(count)
            }
        }
    }
}
