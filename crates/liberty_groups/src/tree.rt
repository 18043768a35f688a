//! The tree of a Liberty file.
ghost use Rattle.std.specs.Prelude.{◌≡◌, ◌<◌, ℕ, List, length, get_or, slice_get, Some, IfSome, IfNone};
ghost use Rattle.std.specs.List.{All};
ghost use Rattle.liberty_groups.specs.Groups.{name_of, args_of, attributes_of, groups_of};
ghost use Rattle.liberty_groups.specs.Tables.{no_attribute, group_at, attribute_at, tree_of, IsGroup, IsAttribute, IsLastOf, HasNone};
ghost use Rattle.liberty_groups.specs.TableRows.{attributes_in};
ghost use Rattle.liberty_groups.specs.Built.{tables_in, IsWhole};

use crate::flat::FlatTree;
use crate::rows::{AttrId, AttributeRow, GroupId, GroupRow};
use edge_io::Text;
use name_table::Names;
use std::marker::Model;

/// What a Liberty file says, in flat tables: groups stand behind those in them, the library last. Contracts see the
/// tables of rows, and `group_at` is the tree of a group. There is always a library.
#[derive(Drop)]
pub struct GroupTree {
    names: Names,
    texts: Vec<Text>,
    attributes: Vec<AttributeRow>,
    children: Vec<GroupId>,
    groups: Vec<GroupRow>,
}

impl Model for GroupTree {
    ghost use Rattle.liberty_groups.specs.Tables.{Tables};
    ghost use Rattle.liberty_groups.specs.TableRows.{tables_of, AreWhole};

    ghost Value = { Tables };

    ghost view = { λ t. tables_of t.names t.texts.items t.attributes.items t.children.items t.groups.items };

    ghost invariant = { λ t. AreWhole t.names t.texts.items t.attributes.items t.children.items t.groups.items };
}

impl GroupTree {
    /// The tree of these tables.
    pub(crate) fn of(flat: FlatTree) -> GroupTree
        requires { IsWhole flat }
        ensures { result ≡ tables_in flat }
    {
        GroupTree {
            names: flat.names,
            texts: flat.texts,
            attributes: flat.attributes,
            children: flat.children,
            groups: flat.groups,
        }
    }

    /// The library.
    pub fn root(&self) -> GroupId
        ensures tree { group_at self.now result.0 ≡ tree_of self.now }
        ensures within { IsGroup self.now result.0 }
    {
        GroupId(self.groups.len().saturating_sub(1) as u32)
    }

    /// The name of a group, as `cell`.
    pub fn name(&self, g: GroupId) -> &Text
        requires { IsGroup self.now g.0 }
        ensures { result.now ≡ name_of (group_at self.now g.0) }
    {
        &self.groups[g.0 as usize].name
    }

    /// How many arguments a group has.
    pub fn arg_count(&self, g: GroupId) -> usize
        requires { IsGroup self.now g.0 }
        ensures { result ≡ length (args_of (group_at self.now g.0)) }
    {
        self.groups[g.0 as usize].args.len()
    }

    /// An argument of a group, counted from 0.
    pub fn arg(&self, g: GroupId, i: usize) -> &Text
        requires group { IsGroup self.now g.0 }
        requires place { i < length (args_of (group_at self.now g.0)) }
        ensures { slice_get (args_of (group_at self.now g.0)) i ≡ Some result.now }
    {
        &self.texts[self.groups[g.0 as usize].args.from as usize + i]
    }

    /// How many groups stand in a group.
    pub fn child_count(&self, g: GroupId) -> usize
        requires { IsGroup self.now g.0 }
        ensures { result ≡ length (groups_of (group_at self.now g.0)) }
    {
        self.groups[g.0 as usize].children.len()
    }

    /// A group in a group, counted from 0 in the order of the file.
    pub fn child(&self, g: GroupId, i: usize) -> GroupId
        requires group { IsGroup self.now g.0 }
        requires place { i < length (groups_of (group_at self.now g.0)) }
        ensures tree { slice_get (groups_of (group_at self.now g.0)) i ≡ Some (group_at self.now result.0) }
        ensures within { IsGroup self.now result.0 }
    {
        self.children[self.groups[g.0 as usize].children.from as usize + i]
    }

    /// The last attribute of a name in a group. It looks the name up once, and takes one pass over the group's attributes.
    pub fn attribute(&self, g: GroupId, key: &[u8]) -> Option<AttrId>
        requires { IsGroup self.now g.0 }
        ensures last { IfSome result (λ a. IsLastOf key.now (attributes_of (group_at self.now g.0)) (attribute_at self.now a.0)) }
        ensures within { IfSome result (λ a. IsAttribute self.now a.0) }
        ensures absent { IfNone result (HasNone key.now (attributes_of (group_at self.now g.0))) }
    {
        let span = self.groups[g.0 as usize].attributes;
        let up_to = self.attributes.as_slice().split_at(span.end as usize).0;
        let own = up_to.split_at(span.from as usize).1;
        let place = last_of(&self.names, own, key)?;
        Some(AttrId(span.from + place as u32))
    }

    /// How many values an attribute has. A simple one, `name : value`, has one.
    pub fn value_count(&self, a: AttrId) -> usize
        requires { IsAttribute self.now a.0 }
        ensures { result ≡ length (attribute_at self.now a.0).values }
    {
        self.attributes[a.0 as usize].values.len()
    }

    /// A value of an attribute, counted from 0.
    pub fn value(&self, a: AttrId, i: usize) -> &Text
        requires attribute { IsAttribute self.now a.0 }
        requires place { i < length (attribute_at self.now a.0).values }
        ensures { slice_get (attribute_at self.now a.0).values i ≡ Some result.now }
    {
        &self.texts[self.attributes[a.0 as usize].values.from as usize + i]
    }
}

/// The place of the last attribute of a name. Each name has one number, so numbers are compared in place of names.
fn last_of(names: &Names, rows: &[AttributeRow], key: &[u8]) -> Option<usize>
    requires names { All (λ (row : AttributeRow). row.name.0 < length names.now) rows.now }
    ensures last { (texts : List (List ℕ)) → IfSome result
        (λ place. IsLastOf key.now (attributes_in names.now texts rows.now)
        (get_or (attributes_in names.now texts rows.now) place no_attribute)) }
    ensures within { IfSome result (λ place. place < length rows.now) }
    ensures absent { (texts : List (List ℕ)) → IfNone result (HasNone key.now (attributes_in names.now texts rows.now)) }
{
    let name = names.find(key)?;
    let mut found = None;
    let mut place = 0;
    while place < rows.len() {
        if rows[place].name.0 == name.0 {
            found = Some(place);
        }
        place += 1;
    }
    found
}
