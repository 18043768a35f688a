//! The groups in a group of a library, and what its attributes say.
ghost use Rattle.std.specs.Prelude.{◌≡◌, IfSome};
ghost use Rattle.std.specs.Option.{option_copied, option_map};
ghost use Rattle.liberty_groups.specs.Tables.{attribute_at, group_at, IsAttribute, IsGroup};
ghost use Rattle.liberty_tables.specs.Library.{is_named, first_arg, first_group, value_in, values_in};

use crate::attribute_texts::last_of;
use liberty_groups::{AttrId, GroupId, GroupTree};

/// The value of a simple attribute of a group, as `direction : input`: the first, where more are written, and an empty text, where none is.
#[tactic(auto, unfolding(crate::specs::Library::value_in))]
pub fn value_in<'a>(tree: &'a GroupTree, group: GroupId, key: &[u8]) -> Option<&'a [u8]>
    requires { IsGroup tree.now group.0 }
    ensures { option_copied result ≡ value_in key.now (group_at tree.now group.0) }
{
    let attribute = last_of(tree, group, key)?;
    if tree.value_count(attribute) == 0 {
        return Some(&[]);
    }
    Some(tree.value(attribute, 0).bytes())
}

/// The last attribute of a name in a group.
#[tactic(auto, unfolding(crate::specs::Library::values_in))]
pub(crate) fn values_in(tree: &GroupTree, group: GroupId, key: &[u8]) -> Option<AttrId>
    requires { IsGroup tree.now group.0 }
    ensures values { option_map (λ attribute. (attribute_at tree.now attribute.0).values) result
        ≡ values_in key.now (group_at tree.now group.0) }
    ensures within { IfSome result (λ attribute. IsAttribute tree.now attribute.0) }
{
    last_of(tree, group, key)
}

/// Whether a group has this name.
pub fn is_named(tree: &GroupTree, group: GroupId, name: &[u8]) -> bool
    requires { IsGroup tree.now group.0 }
    ensures { result ≡ is_named name.now (group_at tree.now group.0) }
{
    tree.name(group).bytes() == name
}

/// The first argument of a group.
pub(crate) fn first_arg<'a>(tree: &'a GroupTree, group: GroupId) -> Option<&'a [u8]>
    requires { IsGroup tree.now group.0 }
    ensures { option_copied result ≡ first_arg (group_at tree.now group.0) }
{
    if tree.arg_count(group) == 0 {
        return None;
    }
    Some(tree.arg(group, 0).bytes())
}

/// The first group of a name in a group.
#[tactic(auto, using(crate::proofs::Fronts::found_at, crate::proofs::Fronts::passed_at, crate::proofs::Fronts::none_behind), unfolding(crate::specs::Library::first_group))]
pub fn first_group(tree: &GroupTree, outer: GroupId, name: &[u8]) -> Option<GroupId>
    requires { IsGroup tree.now outer.0 }
    ensures first { option_map (λ inner. group_at tree.now inner.0) result ≡ first_group name.now (group_at tree.now outer.0) }
    ensures within { IfSome result (λ inner. IsGroup tree.now inner.0) }
{
    for place in 0..tree.child_count(outer) {
        let inner = tree.child(outer, place);
        if is_named(tree, inner, name) {
            return Some(inner);
        }
    }
    None
}
