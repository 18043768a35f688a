//! How a run ends, and the status that the program ends with.
ghost use Rattle.std.specs.Prelude.{◌≡◌};
ghost use Rattle.gdc_run.specs.Statuses.{status_of};

use gdc_words::UsageFault;
use refusals::{FileKey, Refusal};

/// How a run ends.
#[derive(Drop)]
pub enum Outcome {
    /// The text was written.
    Done,
    /// An input is refused.
    Refused(Refusal),
    /// The words have a fault.
    Usage(UsageFault),
    /// The file of this key could not be read.
    ReadFault(FileKey),
    /// The text could not be written whole.
    WriteFault,
    /// The memory that the run needed was not there.
    OutOfMemory,
}

impl Outcome {
    /// The exit status of the program: 0 to 5, in the order of the variants.
    pub fn status(&self) -> u8
        ensures { result ≡ status_of self.now }
    {
        match self {
            Outcome::Done => 0,
            Outcome::Refused(_) => 1,
            Outcome::Usage(_) => 2,
            Outcome::ReadFault(_) => 3,
            Outcome::WriteFault => 4,
            Outcome::OutOfMemory => 5,
        }
    }
}
