//! The files that are read.
ghost use Rattle.std.specs.Prelude.{◌≡◌, ◌≤◌, ◌⊎◌};
ghost use Rattle.edge_io.specs.Counts.{Rose, RoseBy};
ghost use Rattle.edge_io.specs.Holding.{TellsMissing};
ghost use Rattle.verdict_phases.specs.Phases.{Follows};
ghost use Rattle.refusals.specs.InputFiles.{ReadsInput};
ghost use Rattle.refusals.specs.Refused.{AtReadFault};

use crate::refusal::{FileKey, LimitKind, Refusal};
use edge_io::{Shelf, Text};
use std::alloc::Global;
use verdict_phases::{PhaseEnd, read_phase};

/// How many bytes of a file are read at the most: 2^28.
const FILE_LIMIT: usize = 268_435_456;

/// Reads the file of a key, which is refused where it has more than 2^28 bytes.
///
/// A read fault is told by this key. It comes only where the shelf's count of faults rose in this call or the shelf tells that it does not
/// hold the file, and the count of opens rises by one in any case.
pub fn read_input<H: Shelf>(
    alloc: Global,
    shelf: &mut H,
    name: &Text,
    key: FileKey,
) -> Result<Text, PhaseEnd<Refusal, FileKey>>
    ensures follows { Follows (ReadsInput (H.held shelf.old) key name.now) result }
    ensures fault { AtReadFault result (λ other. (other ≡ key)
        × (Rose (H.faults shelf.old) (H.faults shelf.new) ⊎ TellsMissing (H.held shelf.old) name.now)) }
    ensures later { H.faults shelf.old ≤ H.faults shelf.new }
    ensures opens { RoseBy 1 (H.opens shelf.old) (H.opens shelf.new) }
    ensures held { H.held shelf.new ≡ H.held shelf.old }
{
    let too_long = Refusal::Limit(LimitKind::File(key));
    read_phase(alloc, shelf, name, FILE_LIMIT, key, too_long)
}
