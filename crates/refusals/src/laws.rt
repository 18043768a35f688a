//! The law of files.
ghost use Rattle.refusals.specs.InputFiles.{OneFile};

/// The law of files, which its contract states: a file that is told has one text, or one reason why it is not read. It does nothing when
/// it is called.
#[tactic(auto, using(crate::proofs::OneText::one_file))]
pub fn one_file()
    ensures law { OneFile }
{}
