//! What drives a net, what it drives, and why a design has no flat netlist.

use edge_io::{OutOfMemory, Text};

/// An end of a net: a bit of a port of the design, or a pin of an instance of a cell. All count from 0.
#[derive(Clone, Copy)]
pub enum End {
    Port(usize),
    Pin { instance: usize, pin: usize },
}

/// Why a design has no flat netlist. Connections are asked first, along the walk and as written.
#[derive(Drop)]
pub enum LinkEnd {
    /// A connection names no port of the module, or no pin of the cell.
    UnknownPort {
        instance: Text,
        port: Text,
    },
    /// A connection joins another number of bits than the port has.
    Width {
        instance: Text,
        port: Text,
        want: usize,
        got: usize,
    },
    /// A connection is to a pin of a cell that is neither an input nor an output.
    InoutPin {
        instance: Text,
        pin: Text,
    },
    /// Two nets, or two instances, have this name in the flat design.
    NameClash(Text),
    /// Two ends drive the net of this name.
    SeveralDrivers(Text),
    OutOfMemory,
}

impl From<OutOfMemory> for LinkEnd {
    ghost use Rattle.std.specs.Prelude.{◌≡◌};
    ghost use Rattle.netlist_link.specs.declared.ends.LinkEnd.TheVariants.{OutOfMemory};

    ghost from_gives = { λ _ end. end ≡ OutOfMemory };

    fn from(_error: OutOfMemory) -> LinkEnd {
        LinkEnd::OutOfMemory
    }
}
