//! The delays of paths at all corners.
ghost use Rattle.std.specs.Prelude.{◌≡◌, ℕ, ◌<◌, if◌then◌else◌, length, Some, None, IsTrue};
ghost use Rattle.corner_set.specs.Places.{HasRow};
ghost use Rattle.sdf_writer.specs.Bounds.{AreWithin};
ghost use Rattle.annotation_rows.specs.PathRows.{IsPrinted, all_times};
ghost use Rattle.annotation_rows.specs.PathTables.{kept_at};
ghost use Rattle.annotation_rows.specs.WireRows.{at_corners};

use corner_set::{CornerSet, Grid, corner_at};
use delay_units::Femto;

/// Puts the delays of a row at all corners into a grid of one row, if there is one at each corner.
#[tactic(auto, using(crate::proofs::EdgeTimes::times_none, crate::proofs::EdgeTimes::time_next, crate::proofs::EdgeTimes::times_all, crate::proofs::EdgeTimes::times_within, crate::proofs::EdgeTimes::times_missing))]
pub(crate) fn put_times<C: CornerSet>(
    values: &Grid<C, Option<i128>>,
    row: usize,
    times: &mut Grid<C, Femto>,
) -> bool
    requires one_row { length times.old.values ≡ C.COUNT }
    requires row { HasRow C.COUNT values.now.values row }
    requires printed { (corner : ℕ) → corner < C.COUNT → IsPrinted (kept_at C.COUNT values.now.values row corner) }
    ensures times { all_times (at_corners (kept_at C.COUNT values.now.values row) C.COUNT)
        ≡ (if result then Some times.new.values else None) }
    ensures one_row { length times.new.values ≡ C.COUNT }
    ensures within { IsTrue result → AreWithin times.new.values }
{
    for number in 0..C::COUNT {
        let corner = corner_at::<C>(number);
        let Some(delay) = values.get(row, corner) else {
            return false;
        };
        times.set(0, corner, Femto(delay));
    }
    true
}
