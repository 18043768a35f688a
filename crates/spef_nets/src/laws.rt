//! The laws of what the contracts speak of.
ghost use Rattle.std.specs.Prelude.{◌≡◌, ◌⊎◌, ◌↔◌, ℕ, Bool, true, List, Some, None};
ghost use Rattle.name_table.specs.declared.spef_names.NodeName.{NodeName};
ghost use Rattle.spef_text.specs.SpefFiles.{SpefText, IsFormed};
ghost use Rattle.spef_text.specs.Heads.{HeadText, IsHeadOf};
ghost use Rattle.spef_text.specs.References.{IsNodeOf, IsUnknown};
ghost use Rattle.name_table.specs.NodeKeys.{same_node};
ghost use Rattle.spef_nets.specs.Nodes.{named};
ghost use Rattle.spef_nets.specs.Faults.{AreFaultless, IsSectionEnd, IsLeastFault};
ghost use Rattle.spef_nets.specs.declared.ends.SectionEnd.TheVariants.{OutOfMemory};
ghost use Rattle.spef_nets.specs.declared.ends.SectionEnd.{SectionEnd};

/// The law of refusals, which its contract states: where a file says what its tokens say, a refusal, want of memory aside, is
/// of all faults in the file the one with the least token, and of those at that token the first in the order of `SectionEnd`.
/// It does nothing when it is called.
pub fn first_is_least()
    ensures law { (file : SpefText) (head : HeadText) (end : SectionEnd) → IsFormed file →
        IsSectionEnd file head end → (end ≡ OutOfMemory) ⊎ IsLeastFault file head end }
{}

/// The law of sections that are refused, which its contract states: a file without a fault is refused for want of memory
/// alone, and any other file has one refusal besides. It does nothing when it is called.
pub fn one_section_end()
    ensures none { (file : SpefText) (head : HeadText) (end : SectionEnd) → AreFaultless file head → IsSectionEnd file head end
        → end ≡ OutOfMemory }
    ensures one { (file : SpefText) (head : HeadText) (one other : SectionEnd) → IsSectionEnd file head one → IsSectionEnd file head other →
        (one ≡ OutOfMemory) ⊎ ((other ≡ OutOfMemory) ⊎ (one ≡ other)) }
{}

/// The law of names, which its contract states: what the definitions of this crate compute of a reference is what
/// `Head::resolve` answers for it, and two nodes are one where their heads and their tails are equal. It does nothing when it is
/// called.
pub fn computed_names()
    ensures node { (file : SpefText) (head : HeadText) (cut : Bool) (word : List ℕ) (node : NodeName) → IsHeadOf file head →
        IsNodeOf file cut word node ↔ (named file cut word ≡ Some node) }
    ensures none { (file : SpefText) (cut : Bool) (word : List ℕ) → IsUnknown file word ↔ (named file cut word ≡ None) }
    ensures same { (one other : NodeName) → (same_node one other ≡ true) ↔ ((one.head ≡ other.head) × (one.tail ≡ other.tail)) }
{}
