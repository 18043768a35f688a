//! The tables in which groups that have ended are kept.
ghost use Rattle.std.specs.Prelude.{◌≡◌, ◌++◌, ◌∷◌, [], OnOk, IfOk, length};
ghost use Rattle.liberty_groups.specs.Opened.{row_of_open, IsOpenIn};
ghost use Rattle.liberty_groups.specs.Built.{tables_in, AreSound};

use crate::filling::add_all;
use crate::rows::{AttributeRow, GroupId, GroupRow, OpenGroup, number};
use edge_io::{OutOfMemory, Text};
use name_table::Names;
use std::alloc::Global;

/// Groups behind those in them, and what stands in them: the names of attributes, each once, the arguments and values,
/// the attributes, and the numbers of inner groups. A `GroupTree` has the same tables once they are whole: its invariant
/// would be owed here where memory runs out, too.
#[derive(Drop)]
pub struct FlatTree {
    pub names: Names,
    pub texts: Vec<Text>,
    pub attributes: Vec<AttributeRow>,
    pub children: Vec<GroupId>,
    pub groups: Vec<GroupRow>,
}

impl FlatTree {
    /// No group yet.
    pub(crate) fn new(alloc: Global) -> FlatTree
        ensures sound { AreSound result }
        ensures rows { (tables_in result).rows ≡ [] }
    {
        FlatTree {
            names: Names::new(alloc),
            texts: Vec::new(alloc),
            attributes: Vec::new(alloc),
            children: Vec::new(alloc),
            groups: Vec::new(alloc),
        }
    }

    /// Adds a group that has ended, and answers its number.
    pub(crate) fn add_group(&mut self, group: OpenGroup) -> Result<GroupId, OutOfMemory>
        requires sound { AreSound self.old }
        requires group { IsOpenIn (length self.old.names) (length self.old.texts.items) (length self.old.groups.items) group }
        ensures sound { OnOk result (AreSound self.new) }
        ensures rows { OnOk result ((tables_in self.new).rows ≡ (tables_in self.old).rows
            ++ row_of_open self.old.names self.old.texts.items group ∷ []) }
        ensures names { OnOk result (self.new.names ≡ self.old.names) }
        ensures texts { OnOk result (self.new.texts.items ≡ self.old.texts.items) }
        ensures number { IfOk result (λ id. id.0 ≡ length self.old.groups.items) }
    {
        let id = number(self.groups.len())?;
        let OpenGroup {
            name,
            args,
            mut attributes,
            mut children,
        } = group;
        let row = GroupRow {
            name,
            args,
            attributes: add_all(&mut self.attributes, &mut attributes)?,
            children: add_all(&mut self.children, &mut children)?,
        };
        match self.groups.push(row) {
            Ok(_) => Ok(GroupId(id)),
            Err(_) => Err(OutOfMemory),
        }
    }
}
