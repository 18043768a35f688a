//! The laws of what the contracts speak of.
ghost use Rattle.std.specs.Prelude.{◌≡◌, ℕ, List};
ghost use Rattle.sdf_reader.specs.Tokens.{Lexeme, AreTokens};
ghost use Rattle.sdf_reader.specs.Numbers.{IsValue};
ghost use Rattle.sdf_reader.specs.Causes.{IsFault};
ghost use Rattle.sdf_reader.specs.Answers.{SaysRows};
ghost use Rattle.sdf_reader.specs.declared.ends.SdfCause.{SdfCause};
ghost use Rattle.sdf_reader.specs.declared.rows.SdfRow.{SdfRow};
ghost use Rattle.sdf_reader.specs.declared.rows.Value.{Value};
ghost use Rattle.sdf_reader.specs.declared.timescales.Timescale.{Timescale};

/// The law of files, which its contract states: given bytes say one list of rows at most. It does nothing when it is called.
pub fn one_reading()
    ensures law { (bytes : List ℕ) (some other : List SdfRow) → SaysRows bytes some → SaysRows bytes other → some ≡ other }
{}

/// The law of refusals, which its contract states: given bytes have one dead token at most, and one cause of it. It does nothing
/// when it is called.
pub fn one_fault()
    ensures law { (bytes : List ℕ) (some other : ℕ) (cause because : SdfCause) → IsFault bytes some cause → IsFault bytes other because
        → (some ≡ other) × (cause ≡ because) }
{}

/// The law of tokens, which its contract states: given bytes have only one list of them. It does nothing when it is called.
pub fn one_parting()
    ensures law { (bytes : List ℕ) (some other : List Lexeme) → AreTokens bytes some → AreTokens bytes other → some ≡ other }
{}

/// The law of numbers, which its contract states: given a timescale, a word says one value at most. It does nothing when it is
/// called.
#[tactic(auto, using(crate::proofs::OneValue::one_word_value))]
pub fn one_value()
    ensures law { (scale : Timescale) (word : List ℕ) (some other : Value) → IsValue scale word some
        → IsValue scale word other → some ≡ other }
{}
