//! Why the sections of a file are refused.
ghost use Rattle.std.specs.Prelude.{◌≡◌};
ghost use Rattle.spef_nets.specs.declared.ends.SectionEnd.TheVariants.{OutOfMemory};

use edge_io::{OutOfMemory, Text};

/// Why the sections of a file are refused. Tokens count from 1. The fault with the least token is told; at one token they come
/// in this order.
#[derive(Drop)]
pub enum SectionEnd {
    /// The index at this token is not in the name map.
    UnknownIndex { token: u64 },

    /// A member of the value at this token has more than 30 significant digits, or an exponent past 99 in size, or reads
    /// below 0.
    BadNumber { token: u64 },

    /// A member of the value at this token is past its bound: 1 nF, or 10^8 ohm.
    ValueTooLarge { token: u64 },

    /// The net that this token names has a section already.
    RepeatedNet { net: Text, token: u64 },

    /// A coupling in the section of this net, neither of whose nodes belongs there, by the token of its first node.
    ForeignCoupling { net: Text, token: u64 },

    /// There was no memory for the nets.
    OutOfMemory,
}

impl From<OutOfMemory> for SectionEnd {
    ghost from_gives = { λ _ out. out ≡ OutOfMemory };

    fn from(_error: OutOfMemory) -> SectionEnd {
        SectionEnd::OutOfMemory
    }
}
