ghost use Rattle.std.specs.Prelude.{◌≡◌};

use std::alloc::AllocError;

/// The outside did not do what was asked of it.
#[derive(Clone, Copy)]
pub struct Failed;

/// The memory that a call needed was not there.
// (Tests hand it on by `?`, which prints it.)
#[derive(Clone, Copy, Debug)]
pub struct OutOfMemory;

impl From<AllocError> for OutOfMemory {
    fn from(_error: AllocError) -> OutOfMemory {
        OutOfMemory
    }
}
