//! Numbers in texts.
ghost use Rattle.std.specs.Prelude.{◌≡◌, ◌++◌, OnOk};
ghost use Rattle.trial_files.specs.Numbers.{numbered};

use edge_io::{OutOfMemory, Text};
use itoa::Buffer;

/// Puts a number at the end, with a text before it and one behind it.
pub(crate) fn push_numbered(
    text: &mut Text,
    front: &[u8],
    number: u32,
    back: &[u8],
) -> Result<(), OutOfMemory>
    ensures { OnOk result (text.new ≡ text.old ++ numbered front.now number back.now) }
{
    text.push_all(front)?;
    text.push_all(Buffer::new().format(number).as_bytes())?;
    text.push_all(back)?;
    Ok(())
}
