//! Why a design has no slews.

ghost use Rattle.std.specs.Prelude.{◌≡◌, ◌<◌, length, slice_get, Some};

use crate::arcs::ArcAt;
use cell_models::{Edge, Part};
use delay_units::Atto;
use edge_io::OutOfMemory as WantOfMemory;
use nldm_lookup::Outside;
use std::marker::Model;

/// Arcs of instances, one after another. Contracts see the list of them.
#[derive(Drop)]
pub struct ArcList {
    pub(crate) arcs: Vec<ArcAt>,
}

impl Model for ArcList {
    ghost use Rattle.std.specs.Prelude.{List};
    ghost use Rattle.slew_order.specs.declared.arcs.ArcAt.{ArcAt};

    ghost Value = { List ArcAt };

    ghost view = { λ list. list.arcs.items };
}

impl ArcList {
    /// How many arcs there are.
    pub fn len(&self) -> usize
        ensures { result ≡ length self.now }
    {
        self.arcs.len()
    }

    /// The arc at a place, from 0.
    pub fn get(&self, i: usize) -> ArcAt
        requires { i < length self.now }
        ensures { slice_get self.now i ≡ Some result }
    {
        self.arcs[i]
    }
}

/// Why a design has no slews. They are asked for in this order.
#[derive(Drop)]
pub enum SlewEnd {
    /// The arcs of a cycle: each ends on a net that the related pin of the next is on, and the last on that of the first, which is the
    /// least net of the cycle.
    Loop(ArcList),
    /// A look-up is past an axis of its table, where that is refused: the first by instance, arc, edge, corner, part and axis.
    Outside {
        at: ArcAt,
        edge: Edge,
        corner: usize,
        part: Part,
        outside: Outside,
    },
    /// A look-up leads past a microsecond, the first in the same order.
    PastTime {
        at: ArcAt,
        edge: Edge,
        corner: usize,
        part: Part,
    },
    /// The slew of an input pin is past 10^12 attoseconds behind its wire: the first by net, sink, edge and corner, with the slew of the
    /// driver in attoseconds, and the Elmore sum of the sink in 10^-27 s.
    SlewLimit {
        net: usize,
        sink: usize,
        edge: Edge,
        corner: usize,
        slew: Atto,
        elmore: u128,
    },
    /// Memory was short.
    OutOfMemory,
}

impl From<WantOfMemory> for SlewEnd {
    ghost use Rattle.slew_order.specs.declared.ends.SlewEnd.TheVariants.{OutOfMemory};

    ghost from_gives = { λ _ end. end ≡ OutOfMemory };

    fn from(_error: WantOfMemory) -> SlewEnd {
        SlewEnd::OutOfMemory
    }
}
