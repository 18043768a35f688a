//! The law of what the contracts speak of.
ghost use Rattle.std.specs.Prelude.{◌≡◌, ℕ, List, Result};
ghost use Rattle.gdc_words.specs.CommandLine.{Request, Asks};
ghost use Rattle.gdc_words.specs.declared.faults.UsageFault.{UsageFault};

/// The law of requests, which its contract states: words ask for one thing, or have one first fault. It does nothing when it
/// is called.
pub fn one_request()
    ensures law { (words : List (List ℕ)) (one other : Result Request UsageFault) → Asks words one → Asks words other → one ≡ other }
{}
