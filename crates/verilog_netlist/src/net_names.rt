//! The names of each module: those of its header, then those that `wire` declares, then those that are joined to ports.
ghost use Rattle.std.specs.Prelude.{◌≡◌, ℕ, ◌+◌, ◌<◌, ◌≤◌, ◌++◌, ◌∷◌, [], List, length, map, Some, IfOk, IfSome, OnOk};
ghost use Rattle.std.specs.List.{position, position_or_len};
ghost use Rattle.std.specs.Str.{bytes_eq};
ghost use Rattle.indexmap.specs.IndexSet.{insert_key, insert_all};
ghost use Rattle.verilog_netlist.specs.Ranges.{declared_range};
ghost use Rattle.verilog_netlist.specs.ModuleNames.{is_in, direction_by, way_of, texts_of, texts_in};
ghost use Rattle.verilog_netlist.specs.PartPlaces.{ArePlaces};
ghost use Rattle.verilog_netlist.specs.NameRows.{AreNetNames, keys_of, noted, view_row, fresh, facts_in, joined_texts, text_number, AllDiffer, NotesEntry, AddsNames};

use crate::declared::Declaration;
use crate::entries::{Decl, Direction, Entry, Range};
use crate::name_text::NameText;
use crate::places::{Places, between};
use edge_io::lists::{push, refill, to_u32};
use edge_io::{OutOfMemory, are_equal};
use indexmap::IndexSet;
use name_table::NameHash;
use std::alloc::Global;

/// What a name of a module is: a port of this direction, or a wire in it.
#[derive(Clone, Copy)]
pub enum Way {
    In,
    Out,
    Inner,
}

/// The names of a module in three groups: those of its header, those that `wire` declares, those that are joined to ports.
#[derive(Clone, Copy)]
pub enum Group {
    Headers,
    Wires,
    Joined,
}

impl Entry {
    /// Whether an entry's name is in a group of the names of its module.
    #[inline]
    fn is_in(self, group: Group) -> bool
        ensures { result ≡ is_in group self }
    {
        match group {
            Group::Headers => matches!(
                self,
                Entry::Header(_) | Entry::Declared(Decl::InHeader(_), _, _)
            ),
            Group::Wires => matches!(self, Entry::Declared(Decl::Wire, _, _)),
            Group::Joined => matches!(self, Entry::Whole(_) | Entry::Bit(_, _) | Entry::Part(_, _)),
        }
    }
}

impl Decl {
    /// The direction that declares, if one does.
    #[inline]
    fn direction(self) -> Option<Direction>
        ensures { result ≡ direction_by self }
    {
        match self {
            Decl::InHeader(direction) => Some(direction),
            Decl::Port(direction) => Some(direction),
            Decl::Wire => None,
        }
    }
}

/// A name of a module: its text, its first direction and its first declaration.
#[derive(Clone, Copy)]
pub struct NameRow<'a> {
    pub text: &'a [u8],
    pub direction: Option<Direction>,
    pub first: Option<Declaration>,
}

impl<'a> NameRow<'a> {
    /// A name of which nothing is known yet.
    #[inline]
    fn fresh(text: &'a [u8]) -> NameRow<'a>
        ensures { view_row result ≡ fresh text.now }
    {
        NameRow {
            text,
            direction: None,
            first: None,
        }
    }

    /// The name with a declaration more.
    #[inline]
    fn noted(self, declaration: Declaration) -> NameRow<'a>
        ensures { view_row result ≡ noted (view_row self.entry) declaration }
    {
        NameRow {
            text: self.text,
            direction: match self.direction {
                None => declaration.by.direction(),
                Some(direction) => Some(direction),
            },
            first: match self.first {
                None => Some(declaration),
                Some(first) => Some(first),
            },
        }
    }

    /// What the name is.
    pub(crate) fn way(self) -> Way
        ensures { result ≡ way_of self.entry.direction }
    {
        match self.direction {
            None => Way::Inner,
            Some(Direction::In) => Way::In,
            Some(Direction::Out) => Way::Out,
        }
    }

    /// The range of the name.
    #[inline]
    pub(crate) fn range(self) -> Option<Range>
        ensures { result ≡ declared_range self.entry.first }
    {
        match self.first {
            Some(first) => first.range,
            None => None,
        }
    }
}

/// Adds the name of an entry, if it is in the group and is not there yet.
fn add_text<'a>(
    texts: &mut IndexSet<NameText<'a>, NameHash>,
    bytes: &'a [u8],
    entry: Entry,
    group: Group,
) -> Result<(), OutOfMemory>
    ensures { OnOk result (keys_of texts.new.keys ≡ insert_all bytes_eq (keys_of texts.old.keys) (texts_of bytes.now group (entry ∷ []))) }
{
    if entry.is_in(group) {
        let text = NameText {
            bytes: entry.name().of(bytes),
        };
        match texts.insert(text) {
            Ok(_) => Ok(()),
            Err(_) => Err(OutOfMemory),
        }
    } else {
        Ok(())
    }
}

/// Adds the names of a group, each where it first comes.
fn add_texts<'a>(
    texts: &mut IndexSet<NameText<'a>, NameHash>,
    bytes: &'a [u8],
    entries: &[Entry],
    group: Group,
) -> Result<(), OutOfMemory>
    ensures { OnOk result (keys_of texts.new.keys ≡ insert_all bytes_eq (keys_of texts.old.keys) (texts_of bytes.now group entries.now)) }
{
    for entry in entries {
        add_text(texts, bytes, *entry, group)?;
    }
    Ok(())
}

/// The number of a text that stands at this place or at the next one. An instance often joins the name that was joined last, or the one
/// that is declared behind it, and those are found without a hash.
#[inline]
fn find_near(texts: &IndexSet<NameText<'_>, NameHash>, text: &[u8], place: usize) -> Option<usize>
    requires { AllDiffer (keys_of texts.now.keys) }
    ensures { IfSome result (λ number. Some number ≡ position (λ other. bytes_eq text.now other.bytes.now) texts.now.keys) }
{
    match find_at(texts, text, place) {
        Some(number) => Some(number),
        None => find_at(texts, text, place.saturating_add(1)),
    }
}

/// The number of a name; one that is not there yet is added.
fn number_text<'a>(
    texts: &mut IndexSet<NameText<'a>, NameHash>,
    name: &'a [u8],
    near: u32,
) -> Result<u32, OutOfMemory>
    requires { AllDiffer (keys_of texts.old.keys) }
    ensures texts { OnOk result (keys_of texts.new.keys ≡ insert_key bytes_eq (keys_of texts.old.keys) name.now) }
    ensures number { IfOk result (λ number. number ≡ position_or_len (bytes_eq name.now) (keys_of texts.old.keys)) }
{
    if let Some(place) = find_near(texts, name, near as usize) {
        let known = to_u32(place)?;
        return Ok(known);
    }
    let Ok((place, _)) = texts.insert_full(NameText { bytes: name }) else {
        return Err(OutOfMemory);
    };
    let number = to_u32(place)?;
    Ok(number)
}

/// Adds the name that an entry joins, if it is not there yet, and answers its number; 0 where the entry joins none.
#[inline]
fn join_text<'a>(
    texts: &mut IndexSet<NameText<'a>, NameHash>,
    bytes: &'a [u8],
    entry: Entry,
    near: u32,
) -> Result<u32, OutOfMemory>
    requires { AllDiffer (keys_of texts.old.keys) }
    ensures texts { OnOk result (keys_of texts.new.keys
        ≡ insert_all bytes_eq (keys_of texts.old.keys) (joined_texts bytes.now (entry ∷ []))) }
    ensures number { IfOk result (λ number. number ≡ text_number bytes.now (keys_of texts.new.keys) entry) }
{
    if entry.is_in(Group::Joined) {
        let number = number_text(texts, entry.name().of(bytes), near)?;
        return Ok(number);
    }
    Ok(0)
}

// The number of the name that was joined last: this one, or the one before where this is 0, as it is beside what joins no name.
#[inline]
fn last_joined(number: u32, before: u32) -> u32 {
    if number > 0 { number } else { before }
}

/// Adds the names that entries join, each where it first comes, and their numbers beside the entries.
fn join_texts<'a>(
    texts: &mut IndexSet<NameText<'a>, NameHash>,
    numbers: &mut Vec<u32>,
    bytes: &'a [u8],
    entries: &[Entry],
) -> Result<(), OutOfMemory>
    requires { AllDiffer (keys_of texts.old.keys) }
    ensures texts { OnOk result (keys_of texts.new.keys
        ≡ insert_all bytes_eq (keys_of texts.old.keys) (joined_texts bytes.now entries.now)) }
    ensures numbers { OnOk result (numbers.new.items
        ≡ numbers.old.items ++ map (text_number bytes.now (keys_of texts.new.keys)) entries.now) }
{
    let mut last = 0;
    for entry in entries {
        let number = join_text(texts, bytes, *entry, last)?;
        last = last_joined(number, last);
        push(numbers, number)?;
    }
    Ok(())
}

/// Adds the names of a module, of which these are the entries, where none was added before. It puts the numbers of the names that they
/// join beside the entries. It takes time in proportion to the bytes of the names.
fn collect_texts<'a>(
    texts: &mut IndexSet<NameText<'a>, NameHash>,
    numbers: &mut Vec<u32>,
    bytes: &'a [u8],
    entries: &[Entry],
) -> Result<(), OutOfMemory>
    requires { texts.old.keys ≡ [] }
    ensures texts { OnOk result (keys_of texts.new.keys ≡ texts_in bytes.now entries.now) }
    ensures numbers { OnOk result (numbers.new.items
        ≡ numbers.old.items ++ map (text_number bytes.now (keys_of texts.new.keys)) entries.now) }
{
    add_texts(texts, bytes, entries, Group::Headers)?;
    add_texts(texts, bytes, entries, Group::Wires)?;
    join_texts(texts, numbers, bytes, entries)?;
    Ok(())
}

/// Adds rows for these names, of which nothing is known yet.
fn add_rows<'a>(
    rows: &mut Vec<NameRow<'a>>,
    texts: &IndexSet<NameText<'a>, NameHash>,
) -> Result<(), OutOfMemory>
    ensures { OnOk result (map view_row rows.new.items ≡ map view_row rows.old.items ++ map fresh (keys_of texts.now.keys)) }
{
    for text in texts.as_slice() {
        push(rows, NameRow::fresh(text.bytes))?;
    }
    Ok(())
}

/// This place, where a text stands there.
#[inline]
fn find_at(texts: &IndexSet<NameText<'_>, NameHash>, text: &[u8], place: usize) -> Option<usize>
    requires { AllDiffer (keys_of texts.now.keys) }
    ensures { IfSome result (λ number. Some number ≡ position (λ other. bytes_eq text.now other.bytes.now) texts.now.keys) }
{
    if let Some(other) = texts.get_index(place) {
        if are_equal(text, other.bytes) {
            return Some(place);
        }
    }
    None
}

/// The number of a text among these. The place at which it may stand is looked at first: names are mostly declared in the order of
/// their numbers, and the next one is found without a hash.
#[inline]
fn find_text(texts: &IndexSet<NameText<'_>, NameHash>, text: &[u8], guess: usize) -> Option<usize>
    requires { AllDiffer (keys_of texts.now.keys) }
    ensures { result ≡ position (λ other. bytes_eq text.now other.bytes.now) texts.now.keys }
{
    match find_at(texts, text, guess) {
        Some(number) => Some(number),
        None => texts.get_index_of(&NameText { bytes: text }),
    }
}

/// Notes what an entry declares, in the row of its name. The rows of these names stand from `from` on. It answers the number that the
/// next name to be noted may have.
fn note(
    rows: &mut Vec<NameRow<'_>>,
    from: usize,
    texts: &IndexSet<NameText<'_>, NameHash>,
    guess: usize,
    bytes: &[u8],
    entry: Entry,
) -> usize
    requires rows { from + length texts.now.keys ≡ length rows.old.items }
    requires texts { AllDiffer (keys_of texts.now.keys) }
    ensures { NotesEntry bytes.now (keys_of texts.now.keys) from entry (map view_row rows.old.items) (map view_row rows.new.items) }
{
    if let Entry::Declared(by, name, range) = entry {
        if let Some(number) = find_text(texts, name.of(bytes), guess) {
            let row = rows[from + number];
            rows[from + number] = row.noted(Declaration { by, range });
            return number + 1;
        }
    }
    guess
}

/// Adds the rows of the names of a module, of which these are the entries.
fn add_module_rows<'a>(
    rows: &mut Vec<NameRow<'a>>,
    texts: &IndexSet<NameText<'a>, NameHash>,
    bytes: &[u8],
    entries: &[Entry],
) -> Result<(), OutOfMemory>
    requires { AllDiffer (keys_of texts.now.keys) }
    ensures { OnOk result (map view_row rows.new.items ≡ map view_row rows.old.items
        ++ map (facts_in bytes.now entries.now) (keys_of texts.now.keys)) }
{
    let from = rows.len();
    rows.reserve(texts.len())?;
    add_rows(rows, texts)?;
    let mut guess = 0;
    for entry in entries {
        guess = note(rows, from, texts, guess, bytes, *entry);
    }
    Ok(())
}

/// The names of all modules: where those of each module begin, with the count of all behind the last; their rows; and, beside each
/// entry that joins a name, the number of that name in its module.
#[derive(Drop)]
pub struct NetNames<'a> {
    pub starts: Vec<u32>,
    pub rows: Vec<NameRow<'a>>,
    pub numbers: Vec<u32>,
}

impl<'a> NetNames<'a> {
    /// No name yet, where the first module begins at this place. There is room for so many numbers.
    fn new(alloc: Global, place: usize, many: usize) -> Result<NetNames<'a>, OutOfMemory>
        ensures starts { IfOk result (λ names. names.starts.items ≡ 0 ∷ []) }
        ensures rows { IfOk result (λ names. names.rows.items ≡ []) }
        ensures numbers { IfOk result (λ names. length names.numbers.items ≡ place) }
    {
        let mut starts = Vec::new(alloc);
        push(&mut starts, 0)?;
        let mut numbers = Vec::with_capacity(alloc, many)?;
        refill(&mut numbers, place, 0)?;
        Ok(NetNames {
            starts,
            rows: Vec::new(alloc),
            numbers,
        })
    }

    /// Adds the names of the next module, with these entries behind its name, by way of a table in which no name stands yet.
    fn add_names(
        &mut self,
        texts: &mut IndexSet<NameText<'a>, NameHash>,
        bytes: &'a [u8],
        entries: &[Entry],
    ) -> Result<(), OutOfMemory>
        requires { texts.old.keys ≡ [] }
        ensures { OnOk result (AddsNames bytes.now entries.now self.old self.new) }
    {
        push(&mut self.numbers, 0)?;
        collect_texts(texts, &mut self.numbers, bytes, entries)?;
        add_module_rows(&mut self.rows, texts, bytes, entries)?;
        let end = to_u32(self.rows.len())?;
        push(&mut self.starts, end)
    }

    /// The same.
    fn add_module(
        &mut self,
        alloc: Global,
        bytes: &'a [u8],
        entries: &[Entry],
    ) -> Result<(), OutOfMemory>
        ensures { OnOk result (AddsNames bytes.now entries.now self.old self.new) }
    {
        // The table grows where a module has more names. To count them would take a pass of its own.
        let many = entries.len() / 6;
        let mut texts = IndexSet::with_capacity_and_hasher(alloc, many, NameHash::default())?;
        self.add_names(&mut texts, bytes, entries)
    }
}

/// Collects the names of all modules. It takes time in proportion to the bytes of the names.
pub(crate) fn collect_net_names<'a>(
    alloc: Global,
    bytes: &'a [u8],
    entries: &[Entry],
    places: &Places,
) -> Result<NetNames<'a>, OutOfMemory>
    requires { ArePlaces entries.now places.now }
    ensures { IfOk result (AreNetNames bytes.now entries.now places.now) }
{
    let first = places.first_place();
    let mut names = NetNames::new(alloc, first, entries.len())?;
    for m in 0..places.module_count() {
        let extent = places.module(m);
        let own = between(entries, extent.place + 1, extent.end);
        names.add_module(alloc, bytes, own)?;
    }
    Ok(names)
}
