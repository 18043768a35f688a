//! The command `show`: the rows of an SDF file.
ghost use Rattle.std.specs.Prelude.{◌≡◌, ◌<◌, ◌≤◌, ◌^◌, ◌⊎◌, length};
ghost use Rattle.edge_io.specs.Counts.{Rose, RoseBy};
ghost use Rattle.edge_io.specs.Holding.{TellsMissing};
ghost use Rattle.verdict_phases.specs.Phases.{Follows, FollowsNoFile};
ghost use Rattle.refusals.specs.Refused.{AtReadFault};
ghost use Rattle.command_rows.specs.CommandRows.{ParsesSdf, ShowGives};
ghost use Rattle.refusals.specs.declared.refusal.FileKey.TheVariants.{Sdf};

use edge_io::{Shelf, Text};
use refusals::{FileKey, Refusal, read_input};
use sdf_reader::{SdfEnd, SdfRows, read};
use std::alloc::Global;
use verdict_phases::{NoFileEnd, PhaseEnd};

/// Reads the grammar of an SDF file.
#[tactic(auto, using(crate::specs::CommandRows::is_sdf_file, crate::specs::CommandRows::is_no_sdf_file))]
fn parse_sdf(alloc: Global, bytes: &[u8]) -> Result<SdfRows, NoFileEnd<Refusal>>
    requires { length bytes.now < 2 ^ 32 }
    ensures follows { FollowsNoFile (ParsesSdf bytes.now) result }
{
    match read(alloc, bytes) {
        Ok(rows) => Ok(rows),
        Err(SdfEnd::Syntax { token, cause: _ }) => {
            Err(NoFileEnd::Refused(Refusal::SdfSyntax { token }))
        }
        Err(SdfEnd::OutOfMemory) => Err(NoFileEnd::OutOfMemory),
    }
}

/// The rows of the SDF file of that name.
#[tactic(auto, using(crate::specs::CommandRows::at_sdf_reading, crate::specs::CommandRows::at_sdf, crate::specs::CommandRows::with_sdf_rows))]
pub fn show<H: Shelf>(
    alloc: Global,
    shelf: &mut H,
    name: &Text,
) -> Result<SdfRows, PhaseEnd<Refusal, FileKey>>
    ensures follows { Follows (ShowGives (H.held shelf.old) name.now) result }
    ensures fault { AtReadFault result (λ key. (key ≡ Sdf)
        × (Rose (H.faults shelf.old) (H.faults shelf.new) ⊎ TellsMissing (H.held shelf.old) name.now)) }
    ensures opens { RoseBy 1 (H.opens shelf.old) (H.opens shelf.new) }
{
    let text = read_input(alloc, shelf, name, FileKey::Sdf)?;
    let rows = parse_sdf(alloc, text.bytes())?;
    Ok(rows)
}
