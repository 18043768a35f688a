//! What a value is rounded to.
ghost use Rattle.std.specs.Prelude.{◌≡◌, ◌≤◌};
ghost use Rattle.nldm_lookup.specs.Interpolant.{attos_in, most_in};

/// What a value is rounded to: attoseconds, as slews are, or femtoseconds, as delays are.
#[derive(Clone, Copy)]
pub enum Grain {
    Atto,
    Femto,
}

impl Grain {
    /// How many attoseconds one of them has.
    pub(crate) fn attos(self) -> u128
        ensures attos { result ≡ attos_in self }
        ensures some { 1 ≤ result }
        ensures few { result ≤ 1000 }
    {
        match self {
            Grain::Atto => 1,
            Grain::Femto => 1000,
        }
    }

    /// How many of them a microsecond has.
    pub(crate) fn most(self) -> u128
        ensures { result ≡ most_in self }
    {
        match self {
            Grain::Atto => 1_000_000_000_000,
            Grain::Femto => 1_000_000_000,
        }
    }
}
