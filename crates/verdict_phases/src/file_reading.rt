ghost use Rattle.std.specs.Prelude.{◌≡◌, ◌<◌, ◌≤◌, ◌^◌, ◌⊎◌};
ghost use Rattle.edge_io.specs.Counts.{Rose, RoseBy};
ghost use Rattle.edge_io.specs.Holding.{TellsMissing};
ghost use Rattle.verdict_phases.specs.Phases.{Follows, OnReadFault};
ghost use Rattle.verdict_phases.specs.FileReading.{ReadsFile};

use crate::ends::PhaseEnd;
use edge_io::{ReadEnd, Shelf, Text, read_file};
use std::alloc::Global;

/// Reads the file of a key, which is refused by `too_long` where it has more than `limit` bytes.
///
/// A read fault comes only where the shelf's count of faults rose in this call or the shelf tells that
/// it does not hold the file, and the count of opens rises by one in any case.
pub fn read_phase<H: Shelf, R: Drop, K: Drop>(
    alloc: Global,
    shelf: &mut H,
    name: &Text,
    limit: usize,
    key: K,
    too_long: R,
) -> Result<Text, PhaseEnd<R, K>>
    requires { limit < 2 ^ 40 }
    ensures follows { Follows (ReadsFile limit (H.held shelf.old) key too_long name.now) result }
    ensures fault { OnReadFault result
        (Rose (H.faults shelf.old) (H.faults shelf.new) ⊎ TellsMissing (H.held shelf.old) name.now) }
    ensures later { H.faults shelf.old ≤ H.faults shelf.new }
    ensures opens { RoseBy 1 (H.opens shelf.old) (H.opens shelf.new) }
    ensures held { H.held shelf.new ≡ H.held shelf.old }
{
    match read_file(alloc, shelf, name, limit) {
        Ok(text) => Ok(text),
        Err(ReadEnd::ReadFault) => Err(PhaseEnd::ReadFault(key)),
        Err(ReadEnd::TooLong) => Err(PhaseEnd::Refused(too_long)),
        Err(ReadEnd::OutOfMemory) => Err(PhaseEnd::OutOfMemory),
    }
}
