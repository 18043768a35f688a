//! What is wrong with the words.
ghost use Rattle.std.specs.Prelude.{◌≡◌};
ghost use Rattle.gdc_words.specs.CommandLine.{fault_at};

use edge_io::{OutOfMemory, Text};

/// What is wrong with the words.
#[derive(Clone, Copy)]
pub enum UsageKind {
    NoCommand,
    UnknownCommand,
    UnknownWord,
    Repeated,
    MissingValue,
    BadValue,
    Mixed,
    MissingKey,
}

/// The first fault of the words.
#[derive(Drop)]
pub struct UsageFault {
    pub kind: UsageKind,
    /// The number of the word, from 1, or 0 where the fault has no place.
    pub place: usize,
    /// The key that `Mixed` and `MissingKey` name.
    pub key: Option<Text>,
}

/// Why the words were not read.
#[derive(Drop)]
pub enum WordsEnd {
    Usage(UsageFault),
    OutOfMemory,
}

impl From<UsageFault> for WordsEnd {
    ghost use Rattle.std.specs.Prelude.{◌≡◌};
    ghost use Rattle.gdc_words.specs.declared.faults.WordsEnd.TheVariants.{Usage};

    ghost from_gives = { λ fault end. end ≡ Usage fault };

    fn from(fault: UsageFault) -> WordsEnd {
        WordsEnd::Usage(fault)
    }
}

impl From<OutOfMemory> for WordsEnd {
    ghost use Rattle.std.specs.Prelude.{◌≡◌};
    ghost use Rattle.gdc_words.specs.declared.faults.WordsEnd.TheVariants.{OutOfMemory};

    ghost from_gives = { λ _ end. end ≡ OutOfMemory };

    fn from(_: OutOfMemory) -> WordsEnd {
        WordsEnd::OutOfMemory
    }
}

/// A fault at a word.
pub(crate) fn fault_at(kind: UsageKind, place: usize) -> UsageFault
    ensures { result ≡ fault_at kind place }
{
    UsageFault {
        kind,
        place,
        key: None,
    }
}
