//! Why a net has no tree.

use edge_io::OutOfMemory;
use name_table::NodeName;

/// Why a net has no tree. They are asked in this order, but for the last.
#[derive(Drop)]
pub enum TreeEnd {
    /// The first connection of the section that is neither the driver nor a sink.
    StrangePin(NodeName),

    /// The section has more than 2^19 resistors, or its written capacitances and the pins are together more than 2^19.
    TooLarge,

    /// The first node of the net that no walk over its resistors reaches from the driver.
    Unreached(NodeName),

    /// Every node is reached, and so it is without the resistor at this place of the section.
    Mesh(usize),

    /// There was no memory for the tree.
    OutOfMemory,
}

impl From<OutOfMemory> for TreeEnd {
    ghost use Rattle.std.specs.Prelude.{◌≡◌};
    ghost use Rattle.rc_tree.specs.declared.ends.TreeEnd.TheVariants.{OutOfMemory};

    ghost from_gives = { λ _ end. end ≡ OutOfMemory };

    fn from(_end: OutOfMemory) -> TreeEnd {
        TreeEnd::OutOfMemory
    }
}
