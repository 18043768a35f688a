ghost use Rattle.std.specs.Prelude.{None};

use crate::calls::next;
use crate::failures::Failed;
use crate::shelves::Shelf;
use crate::texts::Text;
use std::io::Read;
use std::marker::Model;
use std::rt::Files;
use std::{fs, str};

/// The files of the system, by their paths. It tells nothing of what they hold.
///
/// A path that is not UTF-8 is a fault, as is every error of the system, and a file that grows while it
/// is read just has more to read. The counts stand still at 2 ^ 64 - 1.
#[derive(Drop)]
pub struct FileShelf<R: Files> {
    rt: R,
    file: Option<R::File>,
    faults: u64,
    opens: u64,
    reads: u64,
}

impl<R: Files> Model for FileShelf<R> {
    ghost use Rattle.edge_io.specs.Counts.{ShelfCounts};

    ghost Value = { ShelfCounts };

    ghost view = { λ shelf. record { faults = shelf.faults; opens = shelf.opens; reads = shelf.reads } };
}

impl<R: Files> FileShelf<R> {
    ghost use Rattle.std.specs.Prelude.{◌≡◌};
    ghost use Rattle.edge_io.specs.Counts.{no_counts};

    /// The files that the runtime reaches, none of them open and no fault so far.
    pub fn new(rt: R) -> FileShelf<R>
        ensures { result ≡ no_counts }
    {
        FileShelf {
            rt,
            file: None,
            faults: 0,
            opens: 0,
            reads: 0,
        }
    }
}

impl<R: Files> Shelf for FileShelf<R> {
    ghost held = { λ _. None };

    ghost left = { λ _. None };

    ghost faults = { λ shelf. shelf.faults };

    ghost opens = { λ shelf. shelf.opens };

    ghost reads = { λ shelf. shelf.reads };

    fn open(&mut self, name: &Text) -> Result<(), Failed> {
        self.opens = next(self.opens);
        if let Ok(path) = str::from_utf8(name.bytes()) {
            if let Ok(file) = fs::open(&self.rt, path) {
                self.file = Some(file);
                return Ok(());
            }
        }
        self.faults = next(self.faults);
        Err(Failed)
    }

    fn read(&mut self, piece: &mut [u8]) -> Result<usize, Failed> {
        self.reads = next(self.reads);
        if piece.is_empty() {
            return Ok(0);
        }
        match &mut self.file {
            None => Ok(0),
            Some(file) => match file.read(piece) {
                Ok(count) => Ok(count),
                Err(_) => {
                    self.faults = next(self.faults);
                    Err(Failed)
                }
            },
        }
    }
}
