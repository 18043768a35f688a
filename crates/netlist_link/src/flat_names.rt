//! The names of a flat design.
ghost use Rattle.std.specs.Prelude.{◌≡◌, true, ℕ, ◌+◌, ◌<◌, ◌≤◌, ◌++◌, ◌∷◌, [], length, map, slice_get, Some, ◌^◌, IfOk, IfSome, OnOk};
ghost use Rattle.edge_io.specs.Bytes.{slash, left_bracket, right_bracket};
ghost use Rattle.name_table.specs.SdfNames.{is_plain, part};
ghost use Rattle.hierarchy.specs.Uses.{IsWalkable};
ghost use Rattle.hierarchy.specs.Walks.{visits};
ghost use Rattle.hierarchy.specs.WalkTables.{AreTablesOfWalk};
ghost use Rattle.verilog_netlist.specs.ModuleNames.{range_of};
ghost use Rattle.netlist_link.specs.FlatNames.{path_text, path_sdf, index_at, bit_suffix};
ghost use Rattle.netlist_link.specs.PathTables.{IsWalk, top_of, ArePaths, HoldsPaths, text_at, spelling_at};

use edge_io::{OutOfMemory, Text, TextList};
use hierarchy::Walk;
use itoa::Buffer;
use name_table::escape_sdf;
use std::alloc::Global;
use text_table::FlatTexts;
use verilog_netlist::{Modules, Range};

/// The paths of the visited modules, as texts and as SDF spells them, each with `/` behind every instance.
#[derive(Drop)]
pub(crate) struct Paths {
    texts: TextList,
    spellings: TextList,
}

impl Paths {
    /// The path of a visited module.
    pub fn text(&self, visit: usize) -> &[u8]
        requires { visit < length self.now.texts }
        ensures { result.now ≡ text_at self.now visit }
    {
        self.texts.as_slice()[visit].bytes()
    }

    /// The same as SDF spells it.
    pub fn spelling(&self, visit: usize) -> &[u8]
        requires { visit < length self.now.spellings }
        ensures { result.now ≡ spelling_at self.now visit }
    {
        self.spellings.as_slice()[visit].bytes()
    }
}

// A text, and another behind it.
fn joined(alloc: Global, front: &[u8], back: &[u8]) -> Result<Text, OutOfMemory>
    ensures { IfOk result (λ text. text ≡ front.now ++ back.now) }
{
    let mut text = Text::from_bytes(alloc, front)?;
    text.push_all(back)?;
    Ok(text)
}

/// A name behind the path of the visited module in which it stands.
pub(crate) fn flat_text(
    alloc: Global,
    paths: &Paths,
    visit: usize,
    name: &[u8],
) -> Result<Text, OutOfMemory>
    requires { visit < length paths.now.texts }
    ensures { IfOk result (λ text. text ≡ text_at paths.now visit ++ name.now) }
{
    joined(alloc, paths.text(visit), name)
}

/// The same as SDF spells it.
pub(crate) fn flat_spelling(
    alloc: Global,
    paths: &Paths,
    visit: usize,
    name: &[u8],
) -> Result<Text, OutOfMemory>
    requires { visit < length paths.now.spellings }
    ensures { IfOk result (λ text. text ≡ spelling_at paths.now visit ++ part name.now) }
{
    let part = escape_sdf(alloc, name)?;
    joined(alloc, paths.spelling(visit), part.bytes())
}

// A letter, a digit or `_`.
fn is_plain_byte(byte: u8) -> bool
    ensures { result ≡ is_plain byte }
{
    byte.is_ascii_alphanumeric() || byte == b'_'
}

/// Whether each byte of a name is a letter, a digit or `_`. SDF spells such a name as it is.
#[tactic(auto, using(crate::proofs::PlainNames::plain_more))]
pub(crate) fn is_plain_name(name: &[u8]) -> bool
    ensures { result ≡ true → part name.now ≡ name.now }
{
    for &byte in name {
        if !is_plain_byte(byte) {
            return false;
        }
    }
    true
}

/// Puts a name behind a path at the end, as SDF spells the name. Few names are spelled otherwise than they are.
pub(crate) fn push_spelled(
    alloc: Global,
    path: &[u8],
    name: &[u8],
    spellings: &mut FlatTexts,
) -> Result<(), OutOfMemory>
    ensures { OnOk result (spellings.new ≡ spellings.old ++ (path.now ++ part name.now) ∷ []) }
{
    if is_plain_name(name) {
        spellings.push(path, name)?;
        return Ok(());
    }
    let spelled = escape_sdf(alloc, name)?;
    spellings.push(path, spelled.bytes())?;
    Ok(())
}

// Puts the path of one visited module more at the ends.
fn add_path(alloc: Global, paths: &mut Paths, parent: usize, name: &[u8]) -> Result<(), OutOfMemory>
    requires texts { parent < length paths.old.texts }
    requires spellings { parent < length paths.old.spellings }
    ensures texts { OnOk result (paths.new.texts ≡ paths.old.texts ++ (text_at paths.old parent ++ (name.now ++ slash ∷ [])) ∷ []) }
    ensures spellings { OnOk result (paths.new.spellings
        ≡ paths.old.spellings ++ (spelling_at paths.old parent ++ (part name.now ++ slash ∷ [])) ∷ []) }
{
    let mut text = flat_text(alloc, paths, parent, name)?;
    text.push_all(b"/")?;
    let mut spelling = flat_spelling(alloc, paths, parent, name)?;
    spelling.push_all(b"/")?;
    paths.texts.push(text)?;
    paths.spellings.push(spelling)
}

/// The paths of all visited modules.
pub(crate) fn paths_of_walk(
    alloc: Global,
    modules: &Modules<'_>,
    walk: &Walk,
) -> Result<Paths, OutOfMemory>
    requires { IsWalk modules.now walk.now }
    ensures { IfOk result (ArePaths modules.now (top_of walk.now)) }
{
    let mut paths = Paths {
        texts: TextList::new(alloc),
        spellings: TextList::new(alloc),
    };
    paths.texts.push(Text::new(alloc))?;
    paths.spellings.push(Text::new(alloc))?;
    let visits = walk.visits();
    for v in 1..visits.len() {
        let visit = visits[v];
        let around = visits[visit.parent as usize];
        let name = modules.instance_name(around.module as usize, visit.instance as usize);
        add_path(alloc, &mut paths, visit.parent as usize, name)?;
    }
    Ok(paths)
}

/// The index of the bit at a place of a range from the left.
fn index_at(range: Range, bit: usize) -> u32
    requires fits { index_at range bit < 2 ^ 32 }
    requires few { bit < 2 ^ 32 }
    ensures { result ≡ index_at range bit }
{
    if range.left < range.right {
        range.left + bit as u32
    } else {
        range.left.saturating_sub(bit as u32)
    }
}

/// Puts the index of a vector's bit behind its name.
pub(crate) fn push_index(
    text: &mut Text,
    range: Option<Range>,
    bit: usize,
) -> Result<(), OutOfMemory>
    requires few { bit < 2 ^ 32 }
    requires fits { IfSome range (λ range. index_at range bit < 2 ^ 32) }
    ensures { OnOk result (text.new ≡ text.old ++ bit_suffix range bit) }
{
    let Some(range) = range else {
        return Ok(());
    };
    let mut buffer = Buffer::new();
    text.push_all(b"[")?;
    text.push_all(buffer.format(index_at(range, bit)).as_bytes())?;
    text.push_all(b"]")
}
