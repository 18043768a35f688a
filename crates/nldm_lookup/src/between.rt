//! Which points of an axis are taken.
ghost use Rattle.std.specs.Prelude.{◌≡◌, pos, ◌≤ℤ◌};
ghost use Rattle.nldm_lookup.specs.Axes.{most};
ghost use Rattle.nldm_lookup.specs.Betweens.{width};
ghost use Rattle.nldm_lookup.specs.BetweenOf.{between_of};

/// Two neighbouring points of an axis: the place of the lower one, and the weights of both. A weight is negative where a quantity
/// is past the other point.
#[derive(Clone, Copy)]
pub(crate) struct Between {
    pub place: usize,
    pub low: i64,
    pub high: i64,
}

impl Between {
    /// The sum of the weights.
    pub fn width(self) -> u128
        requires some { pos 1 ≤ℤ width (between_of self) }
        requires small { width (between_of self) ≤ℤ pos most }
        ensures { pos result ≡ width (between_of self) }
    {
        (self.low + self.high) as u128
    }
}
