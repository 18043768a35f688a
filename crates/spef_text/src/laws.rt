//! The laws of what the contracts speak of.
ghost use Rattle.std.specs.Prelude.{◌≡◌, ℕ, List};
ghost use Rattle.spef_text.specs.Tokens.{AreTokens};
ghost use Rattle.spef_text.specs.Entries.{Reading};
ghost use Rattle.spef_text.specs.SpefFiles.{SpefText, SaysSpef, LeavesSpef, IsFormed};
ghost use Rattle.spef_text.specs.TokenTexts.{StandAlone};
ghost use Rattle.spef_text.specs.TokenOrder.{AreInFileOrder};

/// The law of tokens, which its contract states: given bytes have only one list of them. It does nothing when it is
/// called.
pub fn one_tokens()
    ensures law { (bytes : List ℕ) (some other : List (List ℕ)) → AreTokens bytes some → AreTokens bytes other → some ≡ other }
{}

/// The law of readings, which its contract states: bytes say one thing at most. It does nothing when it is called.
pub fn one_spef()
    ensures law { (bytes : List ℕ) (one other : Reading) → SaysSpef bytes one → SaysSpef bytes other → one ≡ other }
{}

/// The law of dead tokens, which its contract states: bytes leave the grammar with one token at most. It does nothing when
/// it is called.
pub fn one_dead_token()
    ensures law { (bytes : List ℕ) (one other : ℕ) → LeavesSpef bytes one → LeavesSpef bytes other → one ≡ other }
{}

/// The law of the texts of tokens, which its contract states: each stands alone as a token, and only the last may be
/// broken instead. So what is broken is told from a token by its text. It does nothing when it is called.
pub fn token_texts()
    ensures law { (bytes : List ℕ) (texts : List (List ℕ)) → AreTokens bytes texts → StandAlone texts }
{}

/// The law of sections, which its contract states: the tokens that they are said by stand in the order of the file, one
/// section behind the other, and in each the net's name, the connections, the capacitances and the resistances. It does
/// nothing when it is called.
#[tactic(auto, using(crate::proofs::SectionOrder::sections_in_order))]
pub fn sections_in_order()
    ensures law { (file : SpefText) → IsFormed file → AreInFileOrder file.reading.sections }
{}
