//! A shelf that holds the files of a trial.
ghost use Rattle.std.specs.Prelude.{◌≡◌, ◌≤◌, [], Some, option_copied, length, take, drop};
ghost use Rattle.trial_files.specs.HeldFiles.{trial_held};

use crate::files::TrialFiles;
use edge_io::{Failed, Shelf, Text};

/// A shelf in memory that holds the files of a trial, and no others. It tells what it holds, and no call of it ends in a fault.
#[derive(Drop)]
pub struct TrialShelf<'a> {
    files: &'a TrialFiles,
    left: &'a [u8],
    opens: u64,
    reads: u64,
}

impl<'a> TrialShelf<'a> {
    /// A shelf of these files, of which none is open.
    pub fn new(files: &'a TrialFiles) -> TrialShelf<'a>
        ensures { result.files.now ≡ files.now }
    {
        TrialShelf {
            files,
            left: &[],
            opens: 0,
            reads: 0,
        }
    }
}

// The bytes of the file of that name, if there is one.
fn file_of<'a>(files: &'a TrialFiles, name: &[u8]) -> Option<&'a [u8]>
    ensures { option_copied result ≡ trial_held files.now name.now }
{
    if name == b"netlist".as_slice() {
        Some(files.netlist.bytes())
    } else if name == b"library".as_slice() {
        Some(files.library.bytes())
    } else if name == b"spef".as_slice() {
        Some(files.spef.bytes())
    } else {
        None
    }
}

impl<'a> Shelf for TrialShelf<'a> {
    ghost held = { λ shelf. Some (trial_held shelf.files.now) };

    ghost left = { λ shelf. Some shelf.left.now };

    ghost faults = { λ shelf. 0 };

    ghost opens = { λ shelf. shelf.opens };

    ghost reads = { λ shelf. shelf.reads };

    fn open(&mut self, name: &Text) -> Result<(), Failed> {
        self.opens = self.opens.saturating_add(1);
        match file_of(self.files, name.bytes()) {
            Some(bytes) => {
                self.left = bytes;
                Ok(())
            }
            None => Err(Failed),
        }
    }

    fn read(&mut self, piece: &mut [u8]) -> Result<usize, Failed> {
        self.reads = self.reads.saturating_add(1);
        let count = piece.len().min(self.left.len());
        let (front, rest) = self.left.split_at(count);
        piece[..count].copy_from_slice(front);
        self.left = rest;
        Ok(count)
    }
}
