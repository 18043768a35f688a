use edge_io::OutOfMemory;

/// Why a phase that may read files gives no value: a refusal, a read fault at the file of a key, or
/// want of memory.
#[derive(Drop)]
pub enum PhaseEnd<R, K> {
    Refused(R),
    ReadFault(K),
    OutOfMemory,
}

/// Why a phase that reads no file gives no value: a refusal, or want of memory.
#[derive(Drop)]
pub enum NoFileEnd<R> {
    Refused(R),
    OutOfMemory,
}

impl<R, K> From<OutOfMemory> for PhaseEnd<R, K> {
    ghost use Rattle.std.specs.Prelude.{◌≡◌};
    ghost use Rattle.verdict_phases.specs.declared.ends.PhaseEnd.TheVariants.{OutOfMemory};

    ghost from_gives = { λ _ end. end ≡ OutOfMemory };

    fn from(_error: OutOfMemory) -> PhaseEnd<R, K> {
        PhaseEnd::OutOfMemory
    }
}

impl<R> From<OutOfMemory> for NoFileEnd<R> {
    ghost use Rattle.std.specs.Prelude.{◌≡◌};
    ghost use Rattle.verdict_phases.specs.declared.ends.NoFileEnd.TheVariants.{OutOfMemory};

    ghost from_gives = { λ _ end. end ≡ OutOfMemory };

    fn from(_error: OutOfMemory) -> NoFileEnd<R> {
        NoFileEnd::OutOfMemory
    }
}

impl<R, K> From<NoFileEnd<R>> for PhaseEnd<R, K> {
    ghost use Rattle.verdict_phases.specs.Lifting.{IsLifted};

    ghost from_gives = { λ lower end. IsLifted lower end };

    fn from(end: NoFileEnd<R>) -> PhaseEnd<R, K> {
        match end {
            NoFileEnd::Refused(refusal) => PhaseEnd::Refused(refusal),
            NoFileEnd::OutOfMemory => PhaseEnd::OutOfMemory,
        }
    }
}
