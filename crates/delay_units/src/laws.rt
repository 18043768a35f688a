//! The law of what the contracts speak of.
ghost use Rattle.std.specs.Prelude.{◌≡◌, ◌↔◌, ℕ, true, List};
ghost use Rattle.delay_units.specs.Literal.{IsLiteral};
ghost use Rattle.delay_units.specs.Places.{is_literal};

/// The law of literals, which its contract states: the places of a literal lead over a text to one where it may end if and
/// only if the text is written by the parts of a literal. It does nothing when it is called.
pub fn literals()
    ensures law { (text : List ℕ) → (is_literal text ≡ true) ↔ IsLiteral text }
{}
