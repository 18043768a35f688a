//! Moves what has been read to the ends of the tables.
ghost use Rattle.std.specs.Prelude.{◌≡◌, ◌<◌, ◌++◌, [], Some, length, slice_get, IfOk, OnOk};
ghost use Rattle.liberty_groups.specs.TableRows.{IsGrown};

use crate::rows::{Span, number};
use edge_io::{OutOfMemory, are_equal};
use name_table::{NameId, Names};

/// How many names a table has at most. No file of fewer than 2^32 bytes has so many.
const MOST_NAMES: usize = 1 << 30;

/// Moves entries to the end of a table, and answers where they stand.
pub(crate) fn add_all<T>(table: &mut Vec<T>, more: &mut Vec<T>) -> Result<Span, OutOfMemory>
    ensures items { OnOk result (table.new.items ≡ table.old.items ++ more.old.items) }
    ensures moved { OnOk result (more.new.items ≡ []) }
    ensures from { IfOk result (λ span. span.from ≡ length table.old.items) }
    ensures end { IfOk result (λ span. span.end ≡ length table.new.items) }
{
    let from = number(table.len())?;
    match table.append(more) {
        Ok(_) => {}
        Err(_) => return Err(OutOfMemory),
    }
    let end = number(table.len())?;
    Ok(Span { from, end })
}

/// Some of the numbers that names were given last: most names of a library stand in it again and again.
#[derive(Drop)]
pub struct RecentNames {
    numbers: [u32; 64],
}

impl RecentNames {
    /// Before the first name. A number that is not that of the name is no harm, since the name is compared.
    pub(crate) fn new() -> RecentNames {
        RecentNames { numbers: [0; 64] }
    }
}

/// Where the number of a name is kept. Names of attributes differ mostly in their first and last bytes and in their lengths.
fn slot_of(name: &[u8]) -> usize
    ensures { result < 64 }
{
    match name {
        [first, .., last] => {
            (usize::from(*first) + usize::from(*last) * 4 + name.len() % 64) % 64
        }
        _ => 0,
    }
}

/// The number of a name. One that the table does not have is put at its end.
fn look_up(names: &mut Names, name: &[u8]) -> Result<NameId, OutOfMemory>
    ensures named { IfOk result (λ id. slice_get names.new id.0 ≡ Some name.now) }
    ensures grown { OnOk result (IsGrown names.old names.new) }
{
    if let Some(id) = names.find(name) {
        return Ok(id);
    }
    if names.len() >= MOST_NAMES {
        return Err(OutOfMemory);
    }
    names.intern(name)
}

/// The same. A name that was given its number last among those of its place is compared with one text, and not hashed.
pub(crate) fn add_name(
    names: &mut Names,
    recent: &mut RecentNames,
    name: &[u8],
) -> Result<NameId, OutOfMemory>
    ensures named { IfOk result (λ id. slice_get names.new id.0 ≡ Some name.now) }
    ensures grown { OnOk result (IsGrown names.old names.new) }
{
    let slot = slot_of(name);
    let guess = recent.numbers[slot];
    if (guess as usize) < names.len() && are_equal(names.text(NameId(guess)), name) {
        return Ok(NameId(guess));
    }
    let id = look_up(names, name)?;
    recent.numbers[slot] = id.0;
    Ok(id)
}
