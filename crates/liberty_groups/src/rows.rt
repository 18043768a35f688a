//! The rows of a tree's tables, and the groups that have not ended.
ghost use Rattle.std.specs.Prelude.{◌≡◌, ◌-◌, ◌<◌, ◌≤◌, ◌^◌, IfOk};

use edge_io::{OutOfMemory, Text};
use name_table::NameId;

/// The number of a group in its tree.
#[derive(Clone, Copy, PartialEq)]
pub struct GroupId(pub u32);

/// The number of an attribute in its tree.
#[derive(Clone, Copy)]
pub struct AttrId(pub u32);

/// A part of a table.
#[derive(Clone, Copy)]
pub struct Span {
    pub from: u32,
    pub end: u32,
}

impl Span {
    /// How many entries it has.
    pub(crate) fn len(self) -> usize
        requires { self.from ≤ self.end }
        ensures { result ≡ self.end - self.from }
    {
        (self.end - self.from) as usize
    }
}

/// An attribute: the number of its name, and where its values stand among the texts.
#[derive(Clone, Copy)]
pub struct AttributeRow {
    pub name: NameId,
    pub values: Span,
}

/// A group, and where its arguments, its attributes and the groups in it stand.
#[derive(Drop)]
pub struct GroupRow {
    pub name: Text,
    pub args: Span,
    pub attributes: Span,
    pub children: Span,
}

/// A group that has not ended.
#[derive(Drop)]
pub struct OpenGroup {
    pub name: Text,
    pub args: Span,
    pub attributes: Vec<AttributeRow>,
    pub children: Vec<GroupId>,
}

/// The number of the next entry of a table that has so many. A table that is too long for it takes more memory than there is.
pub(crate) fn number(len: usize) -> Result<u32, OutOfMemory>
    ensures value { IfOk result (λ number. number ≡ len) }
    ensures few { IfOk result (λ _. len < 2 ^ 32) }
{
    if len > 0xffff_ffff {
        return Err(OutOfMemory);
    }
    Ok(len as u32)
}
