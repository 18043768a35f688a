//! What the attributes of a group say.
ghost use Rattle.std.specs.Prelude.{◌≡◌, IfSome};
ghost use Rattle.std.specs.Option.{option_map};
ghost use Rattle.liberty_groups.specs.Groups.{attributes_of};
ghost use Rattle.liberty_groups.specs.Tables.{attribute_at, group_at, IsGroup, IsAttribute};
ghost use Rattle.liberty_tables.specs.Attributes.{values_of};

use liberty_groups::{AttrId, GroupId, GroupTree};

/// The last attribute of a name in a group.
pub(crate) fn last_of(tree: &GroupTree, group: GroupId, key: &[u8]) -> Option<AttrId>
    requires { IsGroup tree.now group.0 }
    ensures values { option_map (λ attribute. (attribute_at tree.now attribute.0).values) result
        ≡ values_of key.now (attributes_of (group_at tree.now group.0)) }
    ensures within { IfSome result (λ attribute. IsAttribute tree.now attribute.0) }
{
    tree.attribute(group, key)
}
