//! The laws of why a file has no head.
ghost use Rattle.std.specs.Prelude.{◌≡◌, ◌⊎◌, ℕ, List};
ghost use Rattle.token_fronts.specs.Tokens.{numbered};
ghost use Rattle.spef_text.specs.Entries.{Reading};
ghost use Rattle.spef_text.specs.Grammar.{IsSpef};
ghost use Rattle.spef_text.specs.SpefFiles.{SpefText};
ghost use Rattle.spef_text.specs.Heads.{HeadText, IsHeadOf, IsHeadEnd, IsInOrder};
ghost use Rattle.spef_text.specs.declared.head_ends.HeadEnd.{HeadEnd};
ghost use Rattle.spef_text.specs.declared.head_ends.HeadEnd.TheVariants.{OutOfMemory};

/// The law of heads that are refused, which its contract states: a file that has a head is refused for want of memory
/// alone, and any other file has one refusal besides. It does nothing when it is called.
pub fn one_head_end()
    ensures none { (file : SpefText) (end : HeadEnd) (head : HeadText) → IsHeadEnd file end → IsHeadOf file head → end ≡ OutOfMemory }
    ensures one { (file : SpefText) (one other : HeadEnd) → IsHeadEnd file one → IsHeadEnd file other →
        (one ≡ OutOfMemory) ⊎ ((other ≡ OutOfMemory) ⊎ (one ≡ other)) }
{}

/// The law of the name map, which its contract states: its entries stand in the order of the file, so that the first at which
/// an index stands again has the least token of such. It does nothing when it is called.
pub fn map_in_order()
    ensures law { (texts : List (List ℕ)) (reading : Reading) → IsSpef (numbered 1 texts) reading → IsInOrder reading.head.map }
{}
