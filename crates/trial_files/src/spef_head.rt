//! The head of the SPEF files.
ghost use Rattle.std.specs.Prelude.{◌≡◌, IfOk};
ghost use Rattle.trial_files.specs.SpefHead as texts;

use edge_io::{OutOfMemory, Text};
use std::alloc::Global;

/// A text that begins with the head.
pub(crate) fn begin_spef(alloc: Global) -> Result<Text, OutOfMemory>
    ensures { IfOk result (λ text. text ≡ texts.spef_head) }
{
    Text::from_bytes(
        alloc,
        b"*SPEF \"IEEE 1481-1998\"
*DIVIDER /
*DELIMITER :
*C_UNIT 1 FF
*R_UNIT 1 OHM
",
    )
}
