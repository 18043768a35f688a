//! The libraries of a run, one for each corner.
ghost use Rattle.std.specs.Prelude.{◌≡◌, ◌+◌, ◌<◌, ◌≤◌, ◌⊎◌, [], ◌∷◌, ◌++◌, length, map, slice_get, Some, IfOk, OnOk};
ghost use Rattle.edge_io.specs.Counts.{Rose, RoseBy};
ghost use Rattle.edge_io.specs.Holding.{TellsMissing};
ghost use Rattle.liberty_groups.specs.Tables.{tree_of};
ghost use Rattle.verdict_phases.specs.Phases.{Go, Halt};
ghost use Rattle.design_phases.specs.LibraryReading.{library_key, ReadsLibrary, ReadsLibraries, IsLibraryFault};
ghost use Rattle.refusals.specs.Refused.{AtReadFault, OnStop};

use crate::library_phases::parse_library;
use corner_set::CornerSet;
use edge_io::{OutOfMemory, Shelf, Text, TextList};
use refusals::{FileKey, Refusal, read_input};
use std::alloc::Global;
use std::marker::Model;
use timing_arcs::Library;
use verdict_phases::PhaseEnd;

/// Libraries, one for each of the first corners. Contracts see the tables of each.
#[derive(Drop)]
pub struct Libraries {
    libraries: Vec<Library>,
}

impl Model for Libraries {
    ghost use Rattle.std.specs.Prelude.{List};
    ghost use Rattle.liberty_groups.specs.Tables.{Tables};

    ghost Value = { List Tables };

    ghost view = { λ kept. kept.libraries.items };
}

impl Libraries {
    // No library yet. It takes no memory.
    fn new(alloc: Global) -> Libraries
        ensures { result ≡ [] }
    {
        Libraries {
            libraries: Vec::new(alloc),
        }
    }

    // Puts the library of the next corner at the end.
    fn push(&mut self, library: Library) -> Result<(), OutOfMemory>
        ensures { OnOk result (self.new ≡ self.old ++ library ∷ []) }
    {
        match self.libraries.push(library) {
            Ok(()) => Ok(()),
            Err(_) => Err(OutOfMemory),
        }
    }

    /// The library of a corner.
    pub fn get(&self, corner: usize) -> &Library
        requires { corner < length self.now }
        ensures { slice_get self.now corner ≡ Some result.now }
    {
        &self.libraries[corner]
    }
}

/// The key of the library of a corner, in a run with so many corners.
pub fn library_key(corners: usize, corner: usize) -> FileKey
    ensures { result ≡ library_key corners corner }
{
    if corners == 1 {
        FileKey::Lib
    } else if corner == 0 {
        FileKey::LibMin
    } else if corner == 1 {
        FileKey::LibTyp
    } else {
        FileKey::LibMax
    }
}

/// Reads the library of a corner: its file, and then its grammar.
#[tactic(auto, using(crate::specs::LibraryReading::at_file, crate::specs::LibraryReading::at_tree, crate::specs::LibraryReading::with_tree))]
pub fn read_library<H: Shelf>(
    alloc: Global,
    shelf: &mut H,
    name: &Text,
    corners: usize,
    corner: usize,
) -> Result<Library, PhaseEnd<Refusal, FileKey>>
    ensures ok { IfOk result (λ library. ReadsLibrary (H.held shelf.old) corners corner name.now (Go (tree_of library))) }
    ensures stops { OnStop result (λ why. ReadsLibrary (H.held shelf.old) corners corner name.now (Halt why)) }
    ensures fault { AtReadFault result (λ key. (key ≡ library_key corners corner)
        × (Rose (H.faults shelf.old) (H.faults shelf.new) ⊎ TellsMissing (H.held shelf.old) name.now)) }
    ensures later { H.faults shelf.old ≤ H.faults shelf.new }
    ensures opens { RoseBy 1 (H.opens shelf.old) (H.opens shelf.new) }
    ensures held { H.held shelf.new ≡ H.held shelf.old }
{
    let key = library_key(corners, corner);
    let text = read_input(alloc, shelf, name, key)?;
    let library = parse_library(alloc, corner, text.bytes())?;
    Ok(library)
}

/// Reads the libraries of all corners, in the order of the corners, and stops at the first that is not read.
pub fn read_libraries<C: CornerSet, H: Shelf>(
    alloc: Global,
    shelf: &mut H,
    names: &TextList,
) -> Result<Libraries, PhaseEnd<Refusal, FileKey>>
    requires { length names.now ≡ C.COUNT }
    ensures ok { IfOk result (λ libraries. ReadsLibraries (H.held shelf.old) C.COUNT names.now (Go (map tree_of libraries))) }
    ensures stops { OnStop result (λ why. ReadsLibraries (H.held shelf.old) C.COUNT names.now (Halt why)) }
    ensures fault { AtReadFault result (IsLibraryFault (H.held shelf.old) C.COUNT names.now (H.faults shelf.old) (H.faults shelf.new)
        (H.opens shelf.old) (H.opens shelf.new)) }
    ensures later { H.faults shelf.old ≤ H.faults shelf.new }
    ensures opens { OnOk result (RoseBy C.COUNT (H.opens shelf.old) (H.opens shelf.new)) }
    ensures held { H.held shelf.new ≡ H.held shelf.old }
{
    let mut libraries = Libraries::new(alloc);
    for corner in 0..C::COUNT {
        let name = &names.as_slice()[corner];
        let library = read_library(alloc, shelf, name, C::COUNT, corner)?;
        libraries.push(library)?;
    }
    Ok(libraries)
}
