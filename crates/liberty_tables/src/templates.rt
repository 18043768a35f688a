//! The templates of a library (Liberty, `lu_table_template`).
ghost use Rattle.std.specs.Prelude.{◌≡◌, [], None, length, All, codes, IfOk, IfSome, IfNone, Contains};
ghost use Rattle.std.specs.Option.{option_copied};
ghost use Rattle.std.specs.List.{AllZip};
ghost use Rattle.liberty_groups.specs.Groups.{attributes_of};
ghost use Rattle.liberty_groups.specs.Tables.{tree_of, group_at, IsGroup};
ghost use Rattle.liberty_tables.specs.declared.library_units.LibraryUnits.{LibraryUnits};
ghost use Rattle.liberty_tables.specs.declared.table_names.TableNames.{TableNames};
ghost use Rattle.liberty_tables.specs.TableModel.{PointsMean};
ghost use Rattle.liberty_tables.specs.Templates.{axis_of, both, variables_by, variables_of, template_of};
ghost use Rattle.liberty_tables.specs.TemplateIndex.{AreTemplates, IsReadOf, IsReadAt, IsNamedBy, IsUnder};

use crate::attribute_texts::last_of;
use crate::faults::CellFault;
use crate::group_index::GroupIndex;
use crate::groups::value_in;
use crate::library_units::LibraryUnits;
use crate::table_axes::axis_at;
use crate::table_names::TableNames;
use edge_io::OutOfMemory;
use liberty_groups::{GroupId, GroupTree};
use nldm_lookup::{Axis, Which};
use std::alloc::Global;

/// The variables of a template, which have the axes of its tables, in order.
#[derive(Clone, Copy)]
pub struct Variables {
    pub first: Option<Which>,
    pub second: Option<Which>,
}

// The axis of a variable.
fn axis_of(called: &TableNames, name: &[u8]) -> Option<Which>
    ensures { result ≡ axis_of called.now name.now }
{
    if name == called.slew.bytes() {
        Some(Which::Slew)
    } else if name == called.other.bytes() {
        Some(Which::Load)
    } else {
        None
    }
}

// Two variables, which are not the same.
fn both(first: Option<Which>, second: Option<Which>) -> Option<Variables>
    ensures { result ≡ both first second }
{
    match (first, second) {
        (Some(Which::Slew), Some(Which::Load)) | (Some(Which::Load), Some(Which::Slew)) => {
            Some(Variables { first, second })
        }
        _ => None,
    }
}

// The variables by `variable_1`, `variable_2` and `variable_3`.
fn variables_by(
    called: &TableNames,
    one: Option<&[u8]>,
    two: Option<&[u8]>,
    three: Option<&[u8]>,
) -> Option<Variables>
    ensures { result ≡ variables_by called.now (option_copied one.entry) (option_copied two.entry) (option_copied three.entry) }
{
    match (one, two, three) {
        (None, None, None) => Some(Variables {
            first: None,
            second: None,
        }),
        (Some(one), None, None) => {
            let first = Some(axis_of(called, one)?);
            Some(Variables {
                first,
                second: None,
            })
        }
        (Some(one), Some(two), None) => both(axis_of(called, one), axis_of(called, two)),
        _ => None,
    }
}

// The variables of a group that is a template, if they are known ones.
#[tactic(auto, unfolding(crate::specs::Library::value_in))]
fn variables_of(tree: &GroupTree, called: &TableNames, group: GroupId) -> Option<Variables>
    requires { IsGroup tree.now group.0 }
    ensures { result ≡ variables_of called.now (attributes_of (group_at tree.now group.0)) }
{
    variables_by(
        called,
        value_in(tree, group, b"variable_1"),
        value_in(tree, group, b"variable_2"),
        value_in(tree, group, b"variable_3"),
    )
}

/// What a template with known variables says to a table that has no index of its own: its variables, and the axis of each, or its fault. It
/// is read once, however many tables name it.
#[derive(Drop)]
pub struct Template {
    pub variables: Variables,
    pub first: Result<Axis, CellFault>,
    pub second: Result<Axis, CellFault>,
}

// An axis or its fault, but for want of memory.
fn kept(axis: Result<Axis, CellFault>) -> Result<Result<Axis, CellFault>, OutOfMemory>
    ensures { IfOk result (λ kept. kept ≡ axis) }
{
    match axis {
        Ok(axis) => Ok(Ok(axis)),
        Err(CellFault::OutOfMemory) => Err(OutOfMemory),
        Err(fault) => Ok(Err(fault)),
    }
}

// The axis of a variable by the index of a group that is a template.
fn index_axis(
    alloc: Global,
    tree: &GroupTree,
    group: GroupId,
    key: &[u8],
    called: &TableNames,
    units: &LibraryUnits,
    variable: Option<Which>,
) -> Result<Result<Axis, CellFault>, OutOfMemory>
    requires { IsGroup tree.now group.0 }
    ensures { IfOk result (PointsMean called.now units.now key.now [] (attributes_of (group_at tree.now group.0)) variable) }
{
    kept(axis_at(
        alloc,
        tree,
        last_of(tree, group, key),
        called,
        units,
        variable,
    ))
}

// The axis of no variable.
fn point_axis(
    alloc: Global,
    tree: &GroupTree,
    called: &TableNames,
    units: &LibraryUnits,
) -> Result<Result<Axis, CellFault>, OutOfMemory>
    ensures first { IfOk result (PointsMean called.now units.now (codes "index_1") [] [] None) }
    ensures second { IfOk result (PointsMean called.now units.now (codes "index_2") [] [] None) }
{
    kept(axis_at(alloc, tree, None, called, units, None))
}

// What a group that is a template says.
fn read_template(
    alloc: Global,
    tree: &GroupTree,
    group: GroupId,
    called: &TableNames,
    units: &LibraryUnits,
) -> Result<Option<Template>, OutOfMemory>
    requires { IsGroup tree.now group.0 }
    ensures { IfOk result (IsReadAt tree.now called.now units.now group) }
{
    let Some(variables) = variables_of(tree, called, group) else {
        return Ok(None);
    };
    let first = index_axis(
        alloc,
        tree,
        group,
        b"index_1",
        called,
        units,
        variables.first,
    )?;
    let second = index_axis(
        alloc,
        tree,
        group,
        b"index_2",
        called,
        units,
        variables.second,
    )?;
    Ok(Some(Template {
        variables,
        first,
        second,
    }))
}

// What the built-in template says, which has no axis.
fn read_built_in(
    alloc: Global,
    tree: &GroupTree,
    called: &TableNames,
    units: &LibraryUnits,
) -> Result<Option<Template>, OutOfMemory>
    ensures { IfOk result (IsReadOf called.now units.now []) }
{
    let first = point_axis(alloc, tree, called, units)?;
    let second = point_axis(alloc, tree, called, units)?;
    let variables = Variables {
        first: None,
        second: None,
    };
    Ok(Some(Template {
        variables,
        first,
        second,
    }))
}

// What the groups of an index say.
fn read_all(
    alloc: Global,
    tree: &GroupTree,
    index: &GroupIndex,
    called: &TableNames,
    units: &LibraryUnits,
) -> Result<Vec<Option<Template>>, OutOfMemory>
    requires { All (λ id. IsGroup tree.now id.0) index.now.groups.items }
    ensures { IfOk result (λ read. AllZip (IsReadAt tree.now called.now units.now) index.now.groups.items read.items) }
{
    let mut read = Vec::new(alloc);
    for place in 0..index.groups.len() {
        let template = read_template(alloc, tree, index.group(place), called, units)?;
        if read.push(template).is_err() {
            return Err(OutOfMemory);
        }
    }
    Ok(read)
}

/// The templates of a library: the first of each name, and the built-in one.
#[derive(Drop)]
pub struct Templates {
    pub index: GroupIndex,
    pub read: Vec<Option<Template>>,
    pub built_in: Option<Template>,
}

impl Templates {
    /// The templates of the library that is the root of a tree, read in its units. It takes one pass over the groups in it, and a few over
    /// the attributes of each template.
    pub fn new(
        alloc: Global,
        tree: &GroupTree,
        called: &TableNames,
        units: &LibraryUnits,
    ) -> Result<Templates, OutOfMemory>
        ensures { IfOk result (AreTemplates tree.now called.now units.now) }
    {
        let index = GroupIndex::new(alloc, tree, tree.root(), b"lu_table_template")?;
        let read = read_all(alloc, tree, &index, called, units)?;
        let built_in = read_built_in(alloc, tree, called, units)?;
        Ok(Templates {
            index,
            read,
            built_in,
        })
    }

    // What the first template of a name in the library says.
    fn find(&self, name: &[u8]) -> Option<&Option<Template>>
        requires { length self.now.read.items ≡ length self.now.index.args }
        ensures found { IfSome result (λ template. IsUnder self.now.index.args self.now.read.items name.now template.now) }
        ensures absent { IfNone result (¬ Contains self.now.index.args name.now) }
    {
        let place = self.index.place_of(name)?;
        Some(&self.read[place])
    }

    /// What the template says that a table names by its first argument. It is one look-up.
    pub fn of_table(&self, tree: &GroupTree, table: GroupId) -> Option<&Option<Template>>
        requires even { length self.now.read.items ≡ length self.now.index.args }
        requires table { IsGroup tree.now table.0 }
        ensures named { (called : TableNames) (units : LibraryUnits) → AreTemplates tree.now called units self.now
            → IfSome result (λ template. IsNamedBy called units (tree_of tree.now) (group_at tree.now table.0) template.now) }
        ensures absent { (called : TableNames) (units : LibraryUnits) → AreTemplates tree.now called units self.now
            → IfNone result (template_of (tree_of tree.now) (group_at tree.now table.0) ≡ None) }
    {
        if tree.arg_count(table) == 0 {
            return None;
        }
        let name = tree.arg(table, 0).bytes();
        if name == b"scalar".as_slice() {
            return Some(&self.built_in);
        }
        self.find(name)
    }
}
