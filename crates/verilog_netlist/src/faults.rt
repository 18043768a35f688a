//! The first fault in the names and ranges of a netlist.
ghost use Rattle.std.specs.Prelude.{◌≡◌, ◌^◌, ◌<◌, length, IfOk};
ghost use Rattle.verilog_netlist.specs.Faults.{FindsFault, or_earlier};

use crate::declared::DeclaredNames;
use crate::entries::Entry;
use crate::repeats::NamesSoFar;
use edge_io::OutOfMemory;
use indexmap::IndexSet;
use name_table::NameHash;
use std::alloc::Global;

/// What is wrong with a name or a range.
#[derive(Clone, Copy)]
pub enum NameFault {
    /// A name stands before where names must differ.
    Repeated,

    /// A name stands in the header of its module without a direction, or has a direction and does not stand in the header.
    PortDirection,

    /// A range, a select, a constant or a connection is bad.
    BadRange,
}

/// A fault and the place of the entry at which it stands.
#[derive(Clone, Copy)]
pub struct FirstFault {
    pub fault: NameFault,
    pub place: usize,
}

/// What was found, or an earlier one of the next kind.
fn or_earlier(
    found: Option<FirstFault>,
    next: NameFault,
    place: Option<usize>,
) -> Option<FirstFault>
    ensures { result ≡ or_earlier found next place }
{
    let Some(place) = place else {
        return found;
    };
    match found {
        None => Some(FirstFault { fault: next, place }),
        Some(first) => {
            if place < first.place {
                Some(FirstFault { fault: next, place })
            } else {
                Some(first)
            }
        }
    }
}

/// The first fault in the names and ranges of a netlist, if there is one: that at the least place, and at one place the first in
/// the order repeated, direction, range. It takes time in proportion to the bytes of the names.
pub(crate) fn first_fault(
    alloc: Global,
    bytes: &[u8],
    entries: &[Entry],
) -> Result<Option<FirstFault>, OutOfMemory>
    requires { length entries.now < 2 ^ 30 }
    ensures { IfOk result (FindsFault bytes.now entries.now) }
{
    let mut ranged = IndexSet::with_hasher(alloc, NameHash::default());
    let mut names = NamesSoFar::new(alloc, entries.len())?;
    let repeated = names.take_all(alloc, bytes, entries, &mut ranged)?;
    let unpaired = names.first_unpaired(bytes, entries);
    let mut declared = DeclaredNames::new(alloc, ranged.len())?;
    declared.add_all(&ranged, bytes, entries)?;
    let bad_range = declared.first_bad_range(bytes, entries);
    let found = or_earlier(None, NameFault::Repeated, repeated);
    let found = or_earlier(found, NameFault::PortDirection, unpaired);
    Ok(or_earlier(found, NameFault::BadRange, bad_range))
}
