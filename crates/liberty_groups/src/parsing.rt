//! Reads a Liberty file.
ghost use Rattle.std.specs.Prelude.{◌<◌, ◌^◌, length, IfOk};
ghost use Rattle.liberty_groups.specs.Groups.{Group};
ghost use Rattle.liberty_groups.specs.Tables.{tree_of};
ghost use Rattle.liberty_groups.specs.Causes.{IsFault};
ghost use Rattle.liberty_groups.specs.Answers.{SaysTree, IfSyntax, Gives};

use crate::faults::ParseEnd;
use crate::feeder::Feeder;
use crate::tree::GroupTree;
use std::alloc::Global;

/// The tree of a Liberty file, or the token that cannot stand where it stands, with its line and the cause.
pub fn parse(alloc: Global, bytes: &[u8]) -> Result<GroupTree, ParseEnd>
    requires { length bytes.now < 2 ^ 32 }
    ensures ok { IfOk result (λ tree. SaysTree bytes.now (tree_of tree)) }
    ensures fault { IfSyntax result (IsFault bytes.now) }
    ensures only { (tree : Group) → SaysTree bytes.now tree → Gives tree_of tree result }
{
    let mut feeder = Feeder::new(alloc);
    match feeder.feed(bytes) {
        Ok(()) => feeder.end(),
        Err(end) => Err(end),
    }
}
