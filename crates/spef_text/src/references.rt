//! What a reference names: a node or a net.
ghost use Rattle.std.specs.Prelude.{◌≡◌, ◌≢◌, bytes_eq, ℕ, ◌<◌, ◌++◌, true, List, length, slice_get, Some, IfOk, IfErr, IfSome, IfNone, MatchResult};
ghost use Rattle.spef_text.specs.Heads.{text_of, digits_of, IsHeadOf};
ghost use Rattle.spef_text.specs.declared.entries.MapEntry.{MapEntry};
ghost use Rattle.spef_text.specs.Classes.{index_digits};
ghost use Rattle.spef_text.specs.References.{is_starred, marks_of, index_end, before, mapped_node, IsMapped, IsNodeOf, NamesAsWritten, IsResolveEnd};
ghost use Rattle.name_table.specs.Characters.{characters};
ghost use Rattle.name_table.specs.SpefNames.{whole_node};
ghost use Rattle.name_table.specs.WrittenNames.{IsWritten};
ghost use Rattle.name_table.specs.declared.spef_names.NodeName.{NodeName};

use crate::classes::index_digits;
use crate::file::SpefFile;
use crate::head::Head;
use edge_io::{OutOfMemory, Text, are_equal};
use name_table::{
    NodeName, SpefMarks, WrittenName, cut_node, read_spef_node, written_halves, written_name,
    written_whole,
};
use std::alloc::Global;
use std::marker::Model;

/// Why a reference names nothing. Tokens count from 1.
#[derive(Drop)]
pub enum ResolveEnd {
    /// The index at this token is not in the name map.
    UnknownIndex { token: u64 },

    /// There was no memory for the name.
    OutOfMemory,
}

fn is_starred(word: &[u8]) -> bool
    ensures { result ≡ is_starred word.now }
{
    match word {
        [first, ..] => *first == b'*',
        [] => false,
    }
}

// Where the index ends that a word begins with, if a delimiter ends it.
fn index_end(word: &[u8], delimiter: u8) -> Option<usize>
    ensures value { result ≡ index_end delimiter word.now }
    ensures within { IfSome result (λ place. place < length word.now) }
{
    word.iter().position(|byte| *byte == delimiter)
}

fn before(end: Option<usize>, word: &[u8]) -> &[u8]
    requires { IfSome end (λ place. place < length word.now) }
    ensures { result.now ≡ before end word.now }
{
    match end {
        Some(place) => &word[..place],
        None => word,
    }
}

impl<'a> SpefFile<'a> {
    fn marks(&self) -> SpefMarks
        ensures { result ≡ marks_of self.now }
    {
        let marks = self.head.marks;
        SpefMarks {
            divider: marks.divider,
            delimiter: marks.delimiter,
            left: marks.left,
            right: marks.right,
        }
    }
}

// A name and what follows it as one head.
fn joined_node(
    alloc: Global,
    name: &[u8],
    behind: &[u8],
    marks: &SpefMarks,
) -> Result<NodeName, OutOfMemory>
    ensures { IfOk result (λ node. node ≡ whole_node marks.now (characters (name.now ++ behind.now))) }
{
    let mut joined = Text::from_bytes(alloc, name)?;
    joined.push_all(behind)?;
    read_spef_node(alloc, joined.bytes(), false, marks)
}

// The node of a word whose index, which ends there, stands for the name.
fn mapped_node(
    alloc: Global,
    name: &[u8],
    word: &[u8],
    end: Option<usize>,
    cut: bool,
    marks: &SpefMarks,
) -> Result<NodeName, OutOfMemory>
    requires { IfSome end (λ place. place < length word.now) }
    ensures { IfOk result (λ node. node ≡ mapped_node marks.now cut name.now word.now end) }
{
    match end {
        None => read_spef_node(alloc, name, false, marks),
        Some(place) => {
            if cut {
                cut_node(alloc, name, &word[place + 1..], marks)
            } else {
                joined_node(alloc, name, &word[place..], marks)
            }
        }
    }
}

// The same where the name stands as it is written, and so does what follows the index.
fn written_mapped<'w>(
    name: &'w [u8],
    word: &'w [u8],
    end: Option<usize>,
    cut: bool,
    marks: &SpefMarks,
) -> Option<WrittenName<'w>>
    requires { IfSome end (λ place. place < length word.now) }
    ensures { IfSome result (IsWritten (mapped_node marks.now cut name.now word.now end)) }
{
    match end {
        None => written_whole(name, marks),
        Some(place) if cut => written_halves(name, &word[place + 1..], marks),
        Some(_) => None,
    }
}

// Whether two indices have the same digits. As a rule they are spelled alike.
#[inline(always)]
fn same_index(one: &[u8], other: &[u8]) -> bool
    ensures { result ≡ bytes_eq (index_digits one.now) (index_digits other.now) }
{
    are_equal(one, other) || same_digits(one, other)
}

#[inline(never)]
fn same_digits(one: &[u8], other: &[u8]) -> bool
    ensures { result ≡ bytes_eq (index_digits one.now) (index_digits other.now) }
{
    are_equal(index_digits(one), index_digits(other))
}

// The name of the entry at that place, if its index has the digits of this one.
#[inline(always)]
fn name_there<'f>(file: &'f SpefFile<'_>, place: usize, index: &[u8]) -> Option<&'f [u8]>
    ensures mapped { IfSome result (λ name. IsMapped file.now (index_digits index.now) name.now) }
    ensures unlike { IfNone result ((entry : MapEntry) → slice_get file.now.reading.head.map place ≡ Some entry
        → digits_of file.now entry ≢ index_digits index.now) }
{
    let entry = file.head.map().get(place)?;
    if same_index(file.text_of(entry.index as u64), index) {
        Some(file.text_of(entry.name as u64))
    } else {
        None
    }
}

// The name of an index by its digits, if the map has it. All entries are looked through.
#[inline(never)]
fn name_among<'f>(file: &'f SpefFile<'_>, index: &[u8]) -> Option<&'f [u8]>
    ensures mapped { IfSome result (λ name. IsMapped file.now (index_digits index.now) name.now) }
    ensures unknown { IfNone result ((name : List ℕ) → IsMapped file.now (index_digits index.now) name → ⊥) }
{
    for place in 0..file.head.map().len() {
        if let Some(name) = name_there(file, place, index) {
            return Some(name);
        }
    }
    None
}

impl Head {
    // The name that an index stands for, if the map has it. An index that it does not have is a refusal of the file, so all entries are
    // looked through for a refusal alone.
    #[inline(always)]
    fn name_of<'f>(&self, file: &'f SpefFile<'_>, index: &[u8]) -> Option<&'f [u8]>
        ensures mapped { IfSome result (λ name. IsMapped file.now (index_digits index.now) name.now) }
        ensures unknown { IfNone result ((name : List ℕ) → IsMapped file.now (index_digits index.now) name → ⊥) }
    {
        if let Some(place) = self.places.place_of(index) {
            if let Some(name) = name_there(file, place, index) {
                return Some(name);
            }
        }
        name_among(file, index)
    }

    /// What a token names, which is a reference of the file that the head is of: a name as it is written, or an index, which
    /// stands for its name in the map. A written name is cut at its last delimiter, where `cut` asks for it. The name of an
    /// index is never cut: alone it is the node's head, and where a delimiter and a tail follow the index, the tail is the
    /// node's, unless the word is not to be cut; then the name, the delimiter and the tail are one head.
    ///
    /// `UnknownIndex` comes exactly where the index is not in the map. It takes one look-up in the map.
    pub fn resolve(
        &self,
        alloc: Global,
        file: &SpefFile,
        token: u64,
        cut: bool,
    ) -> Result<NodeName, ResolveEnd>
        requires { IsHeadOf file.now self.now }
        // What is answered is what the token names.
        ensures named { IfOk result (IsNodeOf file.now cut (text_of file.now token)) }
        // A refusal has its cause.
        ensures refused { IfErr result (IsResolveEnd file.now token) }
        // What the token names is answered, unless memory ran out.
        ensures only { (node : NodeName) → IsNodeOf file.now cut (text_of file.now token) node →
            MatchResult result (λ found. found ≡ node) (λ end. end ≡ ResolveEnd.OutOfMemory) }
    {
        let word = file.text_of(token);
        let marks = file.marks();
        let found = if is_starred(word) {
            let end = index_end(word, marks.delimiter);
            match self.name_of(file, before(end, word)) {
                Some(name) => mapped_node(alloc, name, word, end, cut, &marks),
                None => return Err(ResolveEnd::UnknownIndex { token }),
            }
        } else {
            read_spef_node(alloc, word, cut, &marks)
        };
        match found {
            Ok(node) => Ok(node),
            Err(_) => Err(ResolveEnd::OutOfMemory),
        }
    }
}

/// Finds the names of tokens that stand in a file as they are written, as most do. It keeps the index that was looked up last: the nodes
/// of a large net begin with the net's own index, as a rule. Contracts see the file and its head.
#[derive(Drop)]
pub struct WrittenNames<'r, 'f> {
    file: &'r SpefFile<'f>,
    head: &'r Head,
    // the index that was looked up last, and the name that it stands for
    index: &'r [u8],
    name: Option<&'r [u8]>,
}

impl<'r, 'f> Model for WrittenNames<'r, 'f> {
    ghost use Rattle.std.specs.Option.{option_copied};
    ghost use Rattle.spef_text.specs.Heads.{HeadedFile};
    ghost use Rattle.spef_text.specs.References.{KeepsNames};

    ghost Value = { HeadedFile };

    ghost view = { λ n. record { file = n.file.now; head = n.head.now } };

    ghost invariant = { λ n. KeepsNames n.file.now n.head.now n.index.now (option_copied n.name) };
}

impl<'r, 'f> WrittenNames<'r, 'f> {
    /// The names of a file. None has been looked up yet.
    pub fn new(file: &'r SpefFile<'f>, head: &'r Head) -> WrittenNames<'r, 'f>
        requires { IsHeadOf file.now head.now }
        ensures { result ≡ record { file = file.now; head = head.now } }
    {
        WrittenNames {
            file,
            head,
            index: &[],
            name: None,
        }
    }

    /// The file.
    pub fn file(&self) -> &'r SpefFile<'f>
        ensures { result.now ≡ self.now.file }
    {
        self.file
    }

    /// The head and the tail of the node that a token names, cut as [`resolve`](Head::resolve) cuts it, where both stand in the file as
    /// they are written. It takes no memory, and at most one look-up in the map.
    #[inline(always)]
    pub fn name(&mut self, token: u64, cut: bool) -> Option<WrittenName<'r>>
        ensures name { IfSome result (NamesAsWritten self.old.file cut (text_of self.old.file token)) }
        ensures same { self.new ≡ self.old }
    {
        let word = self.file.text_of(token);
        let marks = self.file.marks();
        if !is_starred(word) {
            return written_name(word, cut, &marks);
        }
        let end = index_end(word, marks.delimiter);
        let name = self.name_of(before(end, word))?;
        written_mapped(name, word, end, cut, &marks)
    }

    // The name that an index stands for, if the map has it.
    fn name_of(&mut self, index: &'r [u8]) -> Option<&'r [u8]>
        ensures mapped { IfSome result (λ name. IsMapped self.old.file (index_digits index.now) name.now) }
        ensures same { self.new ≡ self.old }
    {
        if let Some(name) = self.name {
            if are_equal(self.index, index) {
                return Some(name);
            }
        }
        let name = self.head.name_of(self.file, index)?;
        self.index = index;
        self.name = Some(name);
        Some(name)
    }
}
