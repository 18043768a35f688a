//! The indices of the name map, and where their entries stand.
ghost use Rattle.std.specs.Prelude.{◌≡◌, ◌^◌, ◌<◌, ◌++◌, ◌∷◌, [], true, false, length, Contains, IfOk, IfErr, OnOk, IfSome};
ghost use Rattle.name_table.specs.Names.{AreDistinct};
ghost use Rattle.spef_text.specs.Heads.{indices_of, IsRepeat};
ghost use Rattle.spef_text.specs.IndexNumbers.{number_of};

use crate::classes::index_digits;
use crate::file::SpefFile;
use crate::head_ends::HeadEnd;
use edge_io::OutOfMemory;
use edge_io::lists::push;
use name_table::Names;
use std::alloc::Global;

/// A run of entries whose indices are numbers, each one more than that before: the number of the first entry, and its place.
#[derive(Clone, Copy)]
pub struct Run {
    number: u64,
    place: usize,
}

/// Where the entries of a map are looked for by their indices. It is no proof that an entry stands there.
#[derive(Drop)]
pub enum Places {
    /// Runs, where the numbers rise from entry to entry, as extractors write them. They are few as a rule.
    Runs(Vec<Run>),

    /// The digits of each index without leading zeros, by the place of its entry.
    Table(Names),
}

impl Places {
    /// Where the entry of an index stands, by its digits, if the map has it.
    #[inline]
    pub fn place_of(&self, index: &[u8]) -> Option<usize> {
        match self {
            Places::Runs(runs) => place_in(runs.as_slice(), number_of(index_digits(index))),
            Places::Table(table) => Some(table.find(index_digits(index))?.0 as usize),
        }
    }
}

// The place of a number in the last run that begins with no larger one. That is the last of all for the names of most pins, which stand
// behind those of nets.
#[inline]
fn place_in(runs: &[Run], number: u64) -> Option<usize> {
    let last = runs.last()?;
    let run = if last.number <= number {
        last
    } else {
        let behind = runs.partition_point(|run| run.number <= number);
        runs.get(behind.wrapping_sub(1))?
    };
    let further = number.wrapping_sub(run.number) as usize;
    Some(run.place.wrapping_add(further))
}

// The number that digits write, where it is small enough. Of larger ones it is what 64 bits hold, which tells two of them apart too,
// where it differs.
#[inline]
fn number_of(digits: &[u8]) -> u64
    ensures { result ≡ number_of digits.now }
{
    let mut number: u64 = 0;
    for digit in digits {
        let more = number.wrapping_mul(10).wrapping_add(*digit as u64);
        number = more.wrapping_sub(b'0' as u64);
    }
    number
}

// The runs of the indices, where these are numbers that rise from entry to entry. No two are the same then.
fn rising_runs(alloc: Global, file: &SpefFile) -> Result<Option<Vec<Run>>, OutOfMemory>
    ensures { IfOk result (λ runs. IfSome runs (λ _. AreDistinct (indices_of file.now file.now.reading.head.map))) }
{
    let entries = file.head.map();
    let mut runs = Vec::new(alloc);
    let mut last = 0;
    for place in 0..entries.len() {
        let digits = index_digits(file.text_of(entries[place].index as u64));
        let number = number_of(digits);
        if number <= last {
            return Ok(None);
        }
        if place == 0 || number - last > 1 {
            push(&mut runs, Run { number, place })?;
        }
        last = number;
    }
    Ok(Some(runs))
}

/// Where the entries of the map are found by their indices.
pub fn read_places(alloc: Global, file: &SpefFile) -> Result<Places, HeadEnd>
    ensures distinct { OnOk result (AreDistinct (indices_of file.now file.now.reading.head.map)) }
    ensures repeated { IfErr result (IsRepeat file.now) }
{
    match rising_runs(alloc, file) {
        Ok(Some(runs)) => return Ok(Places::Runs(runs)),
        Ok(None) => {}
        Err(_) => return Err(HeadEnd::OutOfMemory),
    }
    match read_indices(alloc, file) {
        Ok(indices) => Ok(Places::Table(indices)),
        Err(end) => Err(end),
    }
}

// The digits of the map's indices without leading zeros, each numbered by the place of its entry.
fn read_indices(alloc: Global, file: &SpefFile) -> Result<Names, HeadEnd>
    ensures indices { IfOk result (λ names. names ≡ indices_of file.now file.now.reading.head.map) }
    ensures distinct { IfOk result (λ names. AreDistinct names) }
    ensures repeated { IfErr result (IsRepeat file.now) }
{
    let mut indices = Names::new(alloc);
    let entries = file.head.map();
    for entry in entries {
        let token = entry.index as u64;
        match put_index(&mut indices, index_digits(file.text_of(token))) {
            Ok(true) => {}
            Ok(false) => return Err(HeadEnd::RepeatedIndex { token }),
            Err(_) => return Err(HeadEnd::OutOfMemory),
        }
    }
    Ok(indices)
}

// Puts the digits of an index at the end, where they do not stand yet, and tells whether they do not.
fn put_index(indices: &mut Names, digits: &[u8]) -> Result<bool, OutOfMemory>
    requires room { length indices.old < 2 ^ 30 }
    ensures put { IfOk result (λ is_new. is_new ≡ true → indices.new ≡ indices.old ++ digits.now ∷ []) }
    ensures held { IfOk result (λ is_new. is_new ≡ false → Contains indices.old digits.now) }
    ensures distinct { OnOk result (AreDistinct indices.new) }
{
    if indices.find(digits).is_some() {
        return Ok(false);
    }
    indices.intern(digits)?;
    Ok(true)
}
