//! What the reader has made of the parts of a file so far.
ghost use Rattle.std.specs.Prelude.{◌≡◌, ◌+◌, ◌<◌, ◌≤◌, ◌^◌, ◌∷◌, [], ◌++◌, ℕ, List, length, IfOk, OnOk};
ghost use Rattle.token_texts.specs.Cuts.{Part};
ghost use Rattle.token_texts.specs.Readings.{IfRefused};
ghost use Rattle.liberty_groups.specs.Places.{size_of};
ghost use Rattle.liberty_groups.specs.Feeding.{part_of, LeadsTo, RefusesAt, CanGoOn, HasRead, StopsAny};
ghost use Rattle.liberty_groups.specs.declared.scan.Kind.{Kind};

use crate::faults::Cause;
use crate::reader::Reader;
use crate::scan::{Kind, cut_at};
use std::alloc::Global;
use token_texts::{Cut, ReadEnd, TokenReader, is_blank};

/// The reader, and the number and the place of the token that comes next.
#[derive(Drop)]
pub struct Progress {
    pub reader: Reader,
    pub number: u64,

    /// How many bytes the parts so far have.
    pub start: usize,
}

/// How many bytes are passed over or taken.
#[inline]
pub(crate) fn size_of(cut: Cut<Kind>) -> usize
    ensures { result ≡ size_of cut }
{
    match cut {
        Cut::Skip(count) => count,
        Cut::Take(count, _) => count,
    }
}

impl Progress {
    /// Before the first part.
    pub(crate) fn new(alloc: Global) -> Progress
        ensures start { result.start ≡ 0 }
        ensures goes_on { CanGoOn result }
        ensures leads { LeadsTo [] result }
    {
        Progress {
            reader: Reader::new(alloc),
            number: 1,
            start: 0,
        }
    }

    /// Goes on behind the blanks at the front of some bytes, each of which is a part, and answers what is left.
    #[inline]
    fn pass_blanks<'a>(&mut self, bytes: &'a [u8]) -> &'a [u8]
        requires bytes { self.old.start + length bytes.now < 2 ^ 32 }
        requires goes_on { CanGoOn self.old }
        ensures goes_on { CanGoOn self.new }
        ensures shorter { length result.now ≤ length bytes.now }
        ensures size { self.new.start + length result.now ≡ self.old.start + length bytes.now }
        ensures read { (all : List ℕ) → HasRead all bytes.now self.old → HasRead all result.now self.new }
    {
        let mut fresh = self.reader.fresh;
        let mut place = 0;
        while place < bytes.len() {
            let byte = bytes[place];
            if byte != b' ' {
                if !is_blank(byte) {
                    break;
                }
                fresh = fresh | (byte == b'\n');
            }
            place += 1;
        }
        self.reader.fresh = fresh;
        self.start += place;
        bytes.split_at(place).1
    }

    /// Goes on behind a part, which has these bytes.
    #[inline(always)]
    pub(crate) fn take(&mut self, cut: Cut<Kind>, bytes: &[u8]) -> Result<(), ReadEnd<Cause>>
        requires some { 0 < length bytes.now }
        requires bytes { self.old.start + length bytes.now < 2 ^ 32 }
        requires goes_on { CanGoOn self.old }
        ensures start { OnOk result (self.new.start ≡ self.old.start + length bytes.now) }
        ensures goes_on { OnOk result (CanGoOn self.new) }
        ensures place { IfRefused result (λ number start cause. start ≡ self.old.start) }
        ensures ok { (before : List (Part Kind)) → LeadsTo before self.old
            → OnOk result (LeadsTo (before ++ part_of cut bytes.now ∷ []) self.new) }
        ensures fault { (before : List (Part Kind)) → LeadsTo before self.old
            → IfRefused result (RefusesAt before self.old cut bytes.now) }
    {
        match cut {
            Cut::Skip(_) => {
                self.reader.pass(bytes);
                self.start += bytes.len();
                Ok(())
            }
            Cut::Take(_, kind) => match self.reader.take(self.number, self.start, kind, bytes) {
                Ok(None) => {
                    self.number += 1;
                    self.start += bytes.len();
                    Ok(())
                }
                Ok(Some(cause)) => Err(ReadEnd::Refused(self.number, self.start, cause)),
                Err(_) => Err(ReadEnd::OutOfMemory),
            },
        }
    }

    /// Reads the parts that are the same whatever comes, which are the blanks and what has bytes behind it, and answers what is left.
    pub(crate) fn read<'a>(&mut self, bytes: &'a [u8]) -> Result<&'a [u8], ReadEnd<Cause>>
        requires bytes { self.old.start + length bytes.now < 2 ^ 32 }
        requires goes_on { CanGoOn self.old }
        ensures goes_on { OnOk result (CanGoOn self.new) }
        ensures shorter { IfOk result (λ left. length left.now ≤ length bytes.now) }
        ensures size { IfOk result (λ left. self.new.start + length left.now ≡ self.old.start + length bytes.now) }
        ensures within { IfRefused result
            (λ number start cause. (self.old.start ≤ start) × (start ≤ self.old.start + length bytes.now)) }
        ensures ok { (all : List ℕ) → HasRead all bytes.now self.old → IfOk result (λ left. HasRead all left.now self.new) }
        ensures fault { (all : List ℕ) → HasRead all bytes.now self.old → IfRefused result (StopsAny all) }
    {
        let mut rest = self.pass_blanks(bytes);
        while let [first, behind @ ..] = rest {
            let cut = cut_at(*first, behind);
            let count = size_of(cut);
            if count >= rest.len() {
                break;
            }
            let (part, others) = rest.split_at(count);
            match self.take(cut, part) {
                Ok(()) => rest = self.pass_blanks(others),
                Err(end) => return Err(end),
            }
        }
        Ok(rest)
    }
}
