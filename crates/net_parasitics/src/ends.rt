//! Why the nets of a netlist have no loads and no Elmore sums.
ghost use Rattle.net_parasitics.specs.TreeEnds.{IsEndOf};

use edge_io::OutOfMemory;
use rc_tree::TreeEnd;

/// Why the nets of a netlist have no loads and no Elmore sums. Nets are given by their numbers, from 0.
#[derive(Drop)]
pub enum ParasiticsEnd {
    /// The first net that has a driver and a sink but no section, where that is refused. It is told before any tree is built.
    MissingNet { net: usize },

    /// The first net that has no tree, and why.
    Tree { net: usize, end: TreeEnd },

    /// There was no memory for the loads, the sums or a tree.
    OutOfMemory,
}

impl From<OutOfMemory> for ParasiticsEnd {
    ghost use Rattle.std.specs.Prelude.{◌≡◌};
    ghost use Rattle.net_parasitics.specs.declared.ends.ParasiticsEnd.TheVariants.{OutOfMemory};

    ghost from_gives = { λ _ end. end ≡ OutOfMemory };

    fn from(_end: OutOfMemory) -> ParasiticsEnd {
        ParasiticsEnd::OutOfMemory
    }
}

/// What the end of a net's tree is to its netlist.
pub(crate) fn end_of_net(net: usize, end: TreeEnd) -> ParasiticsEnd
    ensures { IsEndOf net end result }
{
    match end {
        TreeEnd::OutOfMemory => ParasiticsEnd::OutOfMemory,
        end => ParasiticsEnd::Tree { net, end },
    }
}
