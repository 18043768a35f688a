//! The laws of what the contracts speak of.
ghost use Rattle.std.specs.Prelude.{◌≡◌, ℕ, List};
ghost use Rattle.liberty_groups.specs.Tokens.{Lexeme, AreTokens};
ghost use Rattle.liberty_groups.specs.Groups.{Group};
ghost use Rattle.liberty_groups.specs.Causes.{IsFault};
ghost use Rattle.liberty_groups.specs.Answers.{SaysTree};
ghost use Rattle.liberty_groups.specs.declared.faults.SyntaxFault.{SyntaxFault};

/// The law of trees, which its contract states: given bytes say only one tree. It does nothing when it is called.
pub fn one_tree()
    ensures law { (bytes : List ℕ) (some other : Group) → SaysTree bytes some → SaysTree bytes other → some ≡ other }
{}

/// The law of refusals, which its contract states: given bytes have one fault at most, with its token, its line and its cause, and
/// none where they say a tree. It does nothing when it is called.
pub fn one_fault()
    ensures law { (bytes : List ℕ) (some other : SyntaxFault) → IsFault bytes some → IsFault bytes other → some ≡ other }
    ensures apart { (bytes : List ℕ) (tree : Group) (fault : SyntaxFault) → SaysTree bytes tree → IsFault bytes fault → ⊥ }
{}

/// The law of tokens: given bytes have only one list of them. It does nothing when it is called.
pub fn one_parting()
    ensures law { (bytes : List ℕ) (some other : List Lexeme) → AreTokens bytes some → AreTokens bytes other → some ≡ other }
{}
