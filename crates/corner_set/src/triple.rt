ghost use Rattle.std.specs.Prelude.{ℕ, ◌⊎◌, refl};
ghost use Rattle.std.proofs.Common.{inr};
ghost use Rattle.corner_set.specs.TripleCorners.{number_of_member, member_at, member_below, member_there, number_there, none_there};

use crate::corner::CornerSet;
use crate::pick::Pick;

/// Three corners: the smallest, the typical and the largest member of each triple, numbered in this order.
#[derive(Clone, Copy)]
pub struct Triple;

impl CornerSet for Triple {
    type Index = Pick;

    const COUNT: usize = 3;

    ghost COUNT = { 3 };

    ghost number_of = { number_of_member };

    ghost corner_of = { member_at };

    ghost member_of = { λ member _. member };

    fn number(index: Pick) -> usize {
        match index {
            Pick::Min => 0,
            Pick::Typ => 1,
            Pick::Max => 2,
        }
    }

    fn nth(number: usize) -> Option<Pick> {
        match number {
            0 => Some(Pick::Min),
            1 => Some(Pick::Typ),
            2 => Some(Pick::Max),
            _ => None,
        }
    }

    fn member(index: Pick, _pick: Pick) -> Pick {
        index
    }

    ghost one_or_three = { inr refl };

    ghost number_below = { member_below };

    ghost corner_of_number = { member_there };

    ghost number_of_corner = { number_there };

    ghost no_more = { none_there };
}
