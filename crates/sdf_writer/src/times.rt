//! The times of rows, as they are kept.
ghost use Rattle.std.specs.Prelude.{◌≡◌, ◌++◌, OnOk, OnErr};

use delay_units::Femto;
use edge_io::OutOfMemory;
use edge_io::lists::push;

// Puts times at the end. A row of one corner has one, which is put there sooner by itself than as a list.
#[inline]
pub(crate) fn add_times(times: &mut Vec<Femto>, more: &[Femto]) -> Result<(), OutOfMemory>
    ensures ok { OnOk result (times.new.items ≡ times.old.items ++ more.now) }
    ensures err { OnErr result (times.new.items ≡ times.old.items) }
{
    match more {
        [time] => push(times, *time),
        _ => {
            times.extend_from_slice(more)?;
            Ok(())
        }
    }
}
