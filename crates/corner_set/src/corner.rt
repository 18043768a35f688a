ghost use Rattle.std.specs.Prelude.{◌≡◌, ℕ, ◌<◌, ◌≤◌, ◌⊎◌, Option, Some, None, refl};
ghost use Rattle.std.proofs.Common.{inl, lit<};
ghost use Rattle.corner_set.specs.declared.pick.Pick.{Pick};
ghost use Rattle.corner_set.specs.SoleCorner.{sole_corner, sole_corner-below, sole_corner-above};

use crate::pick::Pick;

/// The corners of one run: conditions of process, voltage and temperature for which each delay is
/// computed side by side. There are one or three of them, numbered from 0.
pub trait CornerSet: Drop {
    /// Names a corner of the set.
    type Index: Copy;

    /// How many corners there are: 1 or 3.
    const COUNT: usize;

    ghost COUNT: { ℕ };

    /// The number of a corner.
    ghost number_of: { Self.Index → ℕ };

    /// The corner of a number.
    ghost corner_of: { ℕ → Option Self.Index };

    /// The member of a triple that a corner takes where the words pick one.
    ghost member_of: { Self.Index → Pick → Pick };

    /// The number of a corner, below `COUNT`.
    fn number(index: Self::Index) -> usize
        ensures { result ≡ number_of index };

    /// The corner of a number, if it is below `COUNT`.
    fn nth(number: usize) -> Option<Self::Index>
        ensures { result ≡ corner_of number };

    /// The member of a triple that counts at a corner, where `pick` is the one that was asked for.
    fn member(index: Self::Index, pick: Pick) -> Pick
        ensures { result ≡ member_of index pick };

    /// There are one or three corners.
    ghost one_or_three: { (COUNT ≡ 1) ⊎ (COUNT ≡ 3) };

    /// A corner's number is below the count.
    ghost number_below: { (index : Self.Index) → number_of index < COUNT };

    /// A corner is the one of its number.
    ghost corner_of_number: { (index : Self.Index) → corner_of (number_of index) ≡ Some index };

    /// Each number below the count has a corner, whose number it is.
    ghost number_of_corner: { (number : ℕ) → number < COUNT → (index : Self.Index) × (corner_of number ≡ Some index)
        × (number_of index ≡ number) };

    /// No other number has one.
    ghost no_more: { (number : ℕ) → COUNT ≤ number → corner_of number ≡ None };
}

/// The corner of a number.
pub fn corner_at<C: CornerSet>(number: usize) -> C::Index
    requires { number < C.COUNT }
    ensures { C.number_of result ≡ number }
{
    match C::nth(number) {
        Some(corner) => corner,
        None => unreachable!(),
    }
}

/// The first corner, which every corner set has.
pub fn first_corner<C: CornerSet>() -> C::Index
    ensures { C.number_of result ≡ 0 }
{
    corner_at::<C>(0)
}

/// One corner alone, which takes of a triple the member that was picked.
#[derive(Clone, Copy)]
pub struct Single;

impl CornerSet for Single {
    type Index = ();

    const COUNT: usize = 1;

    ghost COUNT = { 1 };

    ghost number_of = { λ _. 0 };

    ghost corner_of = { sole_corner };

    ghost member_of = { λ _ pick. pick };

    fn number(_index: ()) -> usize {
        0
    }

    fn nth(number: usize) -> Option<()> {
        if number == 0 { Some(()) } else { None }
    }

    fn member(_index: (), pick: Pick) -> Pick {
        pick
    }

    ghost one_or_three = { inl refl };

    ghost number_below = { λ _. lit< tt };

    ghost corner_of_number = { λ _. refl };

    ghost number_of_corner = { sole_corner-below };

    ghost no_more = { sole_corner-above };
}
