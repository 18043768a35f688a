//! The groups of one name in a group, by their first arguments.
ghost use Rattle.std.specs.Prelude.{◌≡◌, ℕ, ◌<◌, ◌++◌, ◌∷◌, [], List, length, slice_get, Some, IfOk, OnOk, IfSome, IfNone, Contains};
ghost use Rattle.std.specs.Option.{option_copied, option_map};
ghost use Rattle.liberty_groups.specs.Groups.{Group, groups_of};
ghost use Rattle.liberty_groups.specs.Tables.{Tables, group_at, IsGroup};
ghost use Rattle.liberty_tables.specs.Library.{group_for};
ghost use Rattle.liberty_tables.specs.GroupIndex.{arg_of, AreIndexed, Adds};

use crate::groups::{first_arg, is_named};
use edge_io::OutOfMemory;
use liberty_groups::{GroupId, GroupTree};
use name_table::Names;
use std::alloc::Global;

/// A table of names has room for so many. More groups take more memory than there is.
const MOST_GROUPS: usize = 1 << 30;

/// The groups of one name in a group, by their first arguments: of several with one first argument the first.
#[derive(Drop)]
pub struct GroupIndex {
    pub args: Names,
    pub groups: Vec<GroupId>,
}

// The first argument of a group of this name.
fn arg_of<'a>(tree: &'a GroupTree, name: &[u8], group: GroupId) -> Option<&'a [u8]>
    requires { IsGroup tree.now group.0 }
    ensures { option_copied result ≡ arg_of name.now (group_at tree.now group.0) }
{
    if is_named(tree, group, name) {
        first_arg(tree, group)
    } else {
        None
    }
}

impl GroupIndex {
    /// The groups of this name in a group. It takes one pass over the groups in it.
    pub fn new(
        alloc: Global,
        tree: &GroupTree,
        outer: GroupId,
        name: &[u8],
    ) -> Result<GroupIndex, OutOfMemory>
        requires { IsGroup tree.now outer.0 }
        ensures { IfOk result (λ index. AreIndexed tree.now name.now (groups_of (group_at tree.now outer.0))
            index.args index.groups.items) }
    {
        let mut index = GroupIndex {
            args: Names::new(alloc),
            groups: Vec::new(alloc),
        };
        for place in 0..tree.child_count(outer) {
            index.add_group(tree, name, tree.child(outer, place))?;
        }
        Ok(index)
    }

    // Adds a group, if it has this name, and none with its first argument came before.
    fn add_group(
        &mut self,
        tree: &GroupTree,
        name: &[u8],
        group: GroupId,
    ) -> Result<(), OutOfMemory>
        requires { IsGroup tree.now group.0 }
        ensures { OnOk result ((groups : List Group) → AreIndexed tree.now name.now groups self.old.args self.old.groups.items
            → AreIndexed tree.now name.now (groups ++ group_at tree.now group.0 ∷ []) self.new.args self.new.groups.items) }
    {
        let Some(arg) = arg_of(tree, name, group) else {
            return Ok(());
        };
        self.add(arg, group)?;
        Ok(())
    }

    // Adds a group, unless one with its first argument came before.
    fn add(&mut self, arg: &[u8], group: GroupId) -> Result<(), OutOfMemory>
        ensures { OnOk result (Adds arg.now group self.old.args self.old.groups.items self.new.args self.new.groups.items) }
    {
        if self.args.find(arg).is_some() {
            return Ok(());
        }
        if self.args.len() >= MOST_GROUPS {
            return Err(OutOfMemory);
        }
        match self.groups.push(group) {
            Ok(_) => {}
            Err(_) => return Err(OutOfMemory),
        }
        let _id = self.args.intern(arg)?;
        Ok(())
    }

    /// The place of the group with a first argument. It is one look-up.
    pub(crate) fn place_of(&self, arg: &[u8]) -> Option<usize>
        ensures found { IfSome result (λ place. slice_get self.now.args place ≡ Some arg.now) }
        ensures within { IfSome result (λ place. place < length self.now.args) }
        ensures absent { IfNone result (¬ Contains self.now.args arg.now) }
    {
        let id = self.args.find(arg)?;
        Some(id.0 as usize)
    }

    /// The group at a place.
    pub(crate) fn group(&self, place: usize) -> GroupId
        requires { place < length self.now.groups.items }
        ensures { slice_get self.now.groups.items place ≡ Some result }
    {
        self.groups[place]
    }

    /// The first group with a first argument. It is one look-up.
    pub fn find(&self, arg: &[u8]) -> Option<GroupId>
        requires { length self.now.groups.items ≡ length self.now.args }
        ensures first { (tree : Tables) (name : List ℕ) (outer : Group)
            → AreIndexed tree name (groups_of outer) self.now.args self.now.groups.items
            → option_map (λ group. group_at tree group.0) result ≡ group_for name arg.now outer }
        ensures within { (tree : Tables) (name : List ℕ) (groups : List Group)
            → AreIndexed tree name groups self.now.args self.now.groups.items → IfSome result (λ group. IsGroup tree group.0) }
    {
        let place = self.place_of(arg)?;
        Some(self.group(place))
    }
}
