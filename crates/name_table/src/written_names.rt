//! Names of SPEF (IEEE 1481-1999) that stand as they are written.
ghost use Rattle.std.specs.Prelude.{◌≡◌, Bool, ◌∷◌, ◌++◌, IfOk, IfSome, true};
ghost use Rattle.std.specs.List.{list_all};
ghost use Rattle.std.specs.Option.{option_copied};
ghost use Rattle.name_table.specs.Characters.{characters};
ghost use Rattle.name_table.specs.SpefNames.{whole_node, cut_node, node_name};
ghost use Rattle.name_table.specs.WrittenNames.{IsWritten, in_sdf};

use crate::spef_names::{SpefMarks, all_stay, last_delimiter, sdf_of_halves};
use edge_io::{OutOfMemory, Text};
use std::alloc::Global;

/// A node's name that stands as it is written: its head and its tail are parts of the word, and no byte of them means another.
#[derive(Clone, Copy)]
pub struct WrittenName<'w> {
    pub head: &'w [u8],
    pub tail: Option<&'w [u8]>,
}

impl<'w> WrittenName<'w> {
    /// The name's spelling in SDF, in which head and tail are joined by `/`.
    pub fn sdf(&self, alloc: Global) -> Result<Text, OutOfMemory>
        ensures { IfOk result (λ sdf. sdf ≡ in_sdf self.now.head.now (option_copied self.now.tail)) }
    {
        match self.tail {
            Some(tail) => sdf_of_halves(alloc, self.head, tail),
            None => Text::from_bytes(alloc, self.head),
        }
    }
}

/// The head and the tail of a name, cut as [`read_spef_node`](crate::read_spef_node) cuts it, where they stand in the word as they are:
/// most names do. `None` of every other name, with a backslash in it or a mark that stands for another byte.
pub fn written_name<'w>(word: &'w [u8], cut: bool, marks: &SpefMarks) -> Option<WrittenName<'w>>
    ensures { IfSome result (IsWritten (node_name marks.now cut word.now)) }
{
    match last_delimiter(word, cut, marks.delimiter) {
        None => written_whole(word, marks),
        Some(place) => written_halves(&word[..place], &word[place + 1..], marks),
    }
}

/// The same of a name that is not cut.
pub fn written_whole<'w>(word: &'w [u8], marks: &SpefMarks) -> Option<WrittenName<'w>>
    ensures { IfSome result (IsWritten (whole_node marks.now (characters word.now))) }
{
    if all_stay(marks, word) {
        Some(WrittenName {
            head: word,
            tail: None,
        })
    } else {
        None
    }
}

/// The same of a name that is cut already: what stands before the delimiter, and what stands after it.
pub fn written_halves<'w>(
    front: &'w [u8],
    back: &'w [u8],
    marks: &SpefMarks,
) -> Option<WrittenName<'w>>
    ensures { IfSome result (IsWritten (cut_node marks.now (characters front.now) (characters back.now))) }
{
    if all_stay(marks, front) && all_stay(marks, back) {
        Some(WrittenName {
            head: front,
            tail: Some(back),
        })
    } else {
        None
    }
}
