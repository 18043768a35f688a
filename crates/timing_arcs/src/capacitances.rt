//! The capacitance of an input pin (Liberty, `capacitance`, `rise_capacitance`, `fall_capacitance`, `default_input_pin_cap`).
ghost use Rattle.std.specs.Prelude.{◌≡◌, ℕ, [], ◌∷◌, IfSome, IfNone};
ghost use Rattle.liberty_groups.specs.Tables.{tree_of, group_at, IsGroup};
ghost use Rattle.timing_arcs.specs.PinModel.{capacitance_texts, default_texts, edges_texts, IsCapacitance};
ghost use Rattle.timing_arcs.specs.Sizes.{larger_size, grains_within};

use delay_units::{Amount, Farads, Unit, read_amount};
use liberty_groups::{GroupId, GroupTree};
use liberty_tables::value_in;

// The larger of two. A number that is not read counts as the larger, as one past the bound does.
fn larger_amount(one: Amount, other: Amount) -> Amount
    ensures { result ≡ larger_size one other }
{
    match (one, other) {
        (Amount::Unread, _) | (_, Amount::Unread) => Amount::Unread,
        (Amount::Past, _) | (_, Amount::Past) => Amount::Past,
        (Amount::Below, _) => other,
        (_, Amount::Below) => one,
        (Amount::Within(grains), Amount::Within(others)) => Amount::Within(grains.max(others)),
    }
}

fn grains_within(amount: Amount) -> Option<u64>
    ensures { result ≡ grains_within amount }
{
    match amount {
        Amount::Within(grains) => Some(grains),
        _ => None,
    }
}

// The capacitance that one text gives.
#[tactic(auto, using(crate::proofs::SizeLemmas::sole_some, crate::proofs::SizeLemmas::sole_none))]
fn sole(unit: &Unit, text: &[u8]) -> Option<u64>
    ensures some { IfSome result (IsCapacitance unit.now (text.now ∷ [])) }
    ensures none { IfNone result ((grains : ℕ) → ¬ IsCapacitance unit.now (text.now ∷ []) grains) }
{
    grains_within(read_amount(unit, Farads::MOST, text))
}

// The larger of two.
#[tactic(auto, using(crate::proofs::SizeLemmas::two_some, crate::proofs::SizeLemmas::two_none))]
fn larger(unit: &Unit, text: &[u8], other: &[u8]) -> Option<u64>
    ensures some { IfSome result (IsCapacitance unit.now (text.now ∷ other.now ∷ [])) }
    ensures none { IfNone result ((grains : ℕ) → ¬ IsCapacitance unit.now (text.now ∷ other.now ∷ []) grains) }
{
    let one = read_amount(unit, Farads::MOST, text);
    let two = read_amount(unit, Farads::MOST, other);
    grains_within(larger_amount(one, two))
}

/// The capacitance of an input pin that has none of its own: the library's default, else 0. `None` where that is no number, or is below 0
/// or more than a
/// nanofarad.
#[tactic(auto, using(crate::proofs::SizeLemmas::nothing_given))]
pub(crate) fn default_capacitance(tree: &GroupTree, unit: &Unit) -> Option<u64>
    ensures some { IfSome result (IsCapacitance unit.now (default_texts (tree_of tree.now))) }
    ensures none { IfNone result ((grains : ℕ) → ¬ IsCapacitance unit.now (default_texts (tree_of tree.now)) grains) }
{
    match value_in(tree, tree.root(), b"default_input_pin_cap") {
        Some(text) => sole(unit, text),
        None => Some(0),
    }
}

// That of the edges, else that of the library's default.
fn edges_capacitance(
    tree: &GroupTree,
    unit: &Unit,
    default: Option<u64>,
    pin: GroupId,
) -> Option<u64>
    requires pin { IsGroup tree.now pin.0 }
    requires some { IfSome default (IsCapacitance unit.now (default_texts (tree_of tree.now))) }
    requires none { IfNone default ((grains : ℕ) → ¬ IsCapacitance unit.now (default_texts (tree_of tree.now)) grains) }
    ensures some { IfSome result (IsCapacitance unit.now (edges_texts (tree_of tree.now) (group_at tree.now pin.0))) }
    ensures none { IfNone result ((grains : ℕ)
        → ¬ IsCapacitance unit.now (edges_texts (tree_of tree.now) (group_at tree.now pin.0)) grains) }
{
    match (
        value_in(tree, pin, b"rise_capacitance"),
        value_in(tree, pin, b"fall_capacitance"),
    ) {
        (Some(rise), Some(fall)) => larger(unit, rise, fall),
        (Some(rise), None) => sole(unit, rise),
        (None, Some(fall)) => sole(unit, fall),
        (None, None) => default,
    }
}

/// The capacitance of an input pin: its own, else the larger of those of its rise and its fall, else the `default`, which is read once.
/// `None` where what
/// counts is no number, or is below 0 or more than a nanofarad.
pub(crate) fn capacitance_of(
    tree: &GroupTree,
    unit: &Unit,
    default: Option<u64>,
    pin: GroupId,
) -> Option<u64>
    requires pin { IsGroup tree.now pin.0 }
    requires some { IfSome default (IsCapacitance unit.now (default_texts (tree_of tree.now))) }
    requires none { IfNone default ((grains : ℕ) → ¬ IsCapacitance unit.now (default_texts (tree_of tree.now)) grains) }
    ensures some { IfSome result (IsCapacitance unit.now (capacitance_texts (tree_of tree.now) (group_at tree.now pin.0))) }
    ensures none { IfNone result ((grains : ℕ)
        → ¬ IsCapacitance unit.now (capacitance_texts (tree_of tree.now) (group_at tree.now pin.0)) grains) }
{
    match value_in(tree, pin, b"capacitance") {
        Some(text) => sole(unit, text),
        None => edges_capacitance(tree, unit, default, pin),
    }
}
