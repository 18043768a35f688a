//! The laws of what the contracts speak of.
ghost use Rattle.std.specs.Prelude.{◌≡◌, ℕ, true, ◌⊎◌, List, [], ◌∷◌, ◌++◌, Some, None};
ghost use Rattle.std.specs.List.{list_all};
ghost use Rattle.name_table.specs.Characters.{Character, bare, characters, may_stand, word_of};
ghost use Rattle.edge_io.specs.Bytes.{slash, backslash};
ghost use Rattle.name_table.specs.SdfNames.{canonical};
ghost use Rattle.name_table.specs.SpefNames.{HasNone, cut_last};
ghost use Rattle.name_table.specs.WellSpelled.{IsWellSpelled};

/// The laws of a word's characters, which its contract states: written one after another they are the word
/// again, but for a backslash at the very end; and the word has no other characters. It does nothing when
/// it is called.
pub fn one_reading()
    ensures back { (word : List ℕ) → (word_of (characters word) ≡ word) ⊎ (word_of (characters word) ++ backslash ∷ [] ≡ word) }
    ensures only { (name : List Character) → list_all may_stand name ≡ true → characters (word_of name) ≡ name }
{}

/// The law of the cut, which its contract states: a name is cut where a bare delimiter stands behind which
/// there is no other, and a name without one is not cut. It does nothing when it is called.
pub fn one_cut()
    ensures last { (delimiter : ℕ) (front back : List Character) → HasNone delimiter back →
        cut_last delimiter (front ++ bare delimiter ∷ back) ≡ Some (record { front = front; back = back }) }
    ensures none { (delimiter : ℕ) (name : List Character) → HasNone delimiter name → cut_last delimiter name ≡ None }
{}

/// The law of well spelled names, which its contract states: each is its own canonical spelling. It does
/// nothing when it is called.
pub fn well_spelled_stays()
    ensures law { (name : List ℕ) → IsWellSpelled name → canonical slash name ≡ name }
{}
