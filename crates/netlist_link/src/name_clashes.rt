//! Names of which no two may be the same.
ghost use Rattle.std.specs.Prelude.{◌≡◌, true, ℕ, ◌<◌, ◌∷◌, ◌++◌, [], length, slice_get, Some, None, Contains, IfOk, IfErr, OnOk};
ghost use Rattle.name_table.specs.Names.{AreDistinct};
ghost use Rattle.verilog_netlist.specs.NetModules.{module_at, name_at};
ghost use Rattle.netlist_link.specs.Clashes.{IsClash, texts_in, texts_of_instances, texts_of_nets};
ghost use Rattle.netlist_link.specs.FlatBitTables.{visits_of};
ghost use Rattle.netlist_link.specs.PathTables.{IsWalk, top_of};

use crate::checking::Design;
use crate::ends::LinkEnd;
use crate::ports::top_module;
use edge_io::{OutOfMemory, Text};
use indexmap::IndexSet;
use name_table::NameHash;
use std::alloc::Global;
use text_table::FlatTexts;
use verilog_netlist::Modules;

// No text was seen yet; there is room for so many.
fn none_seen<'a>(alloc: Global, many: usize) -> Result<IndexSet<&'a [u8], NameHash>, OutOfMemory>
    ensures { IfOk result (λ seen. texts_in seen.keys ≡ []) }
{
    let seen = IndexSet::with_capacity_and_hasher(alloc, many, NameHash::default())?;
    Ok(seen)
}

// The place of a text among those that were seen; one that was not goes last.
fn place_among<'a>(
    seen: &mut IndexSet<&'a [u8], NameHash>,
    text: &'a [u8],
) -> Result<usize, OutOfMemory>
    ensures named { IfOk result (λ place. slice_get (texts_in seen.new.keys) place ≡ Some text.now) }
    ensures held { Contains (texts_in seen.old.keys) text.now → OnOk result (texts_in seen.new.keys ≡ texts_in seen.old.keys) }
    ensures added { ¬ Contains (texts_in seen.old.keys) text.now
        → OnOk result (texts_in seen.new.keys ≡ texts_in seen.old.keys ++ text.now ∷ []) }
    ensures distinct { AreDistinct (texts_in seen.new.keys) }
{
    match seen.insert_full(text) {
        Ok((place, _)) => Ok(place),
        Err(_) => Err(OutOfMemory),
    }
}

// Whether these names differ, or the first that an earlier one is the same as. It takes one look-up for each.
#[tactic(auto, using(crate::specs::Clashes::no_room_is))]
fn check_names(alloc: Global, names: &FlatTexts) -> Result<(), LinkEnd>
    ensures distinct { OnOk result (AreDistinct names.now) }
    ensures refused { IfErr result (IsClash names.now) }
{
    let mut seen = none_seen(alloc, names.len())?;
    for i in 0..names.len() {
        let text = names.text(i);
        let place = place_among(&mut seen, text)?;
        if place < i {
            return Err(LinkEnd::NameClash(Text::from_bytes(alloc, text)?));
        }
    }
    Ok(())
}

// Whether no module but the top is visited.
fn is_one_module(design: &Design<'_>) -> bool
    requires { IsWalk design.now.modules.now design.now.walk.now }
    ensures { result ≡ true → length (visits_of design.now) ≡ 1 }
{
    design.walk.visits().len() == 1
}

/// Whether the names of the instances differ, or the first that an earlier one is the same as. In a design of one module they are names of
/// instances of this module, which differ.
pub(crate) fn check_instances(
    alloc: Global,
    design: &Design<'_>,
    names: &FlatTexts,
) -> Result<(), LinkEnd>
    requires walk { IsWalk design.now.modules.now design.now.walk.now }
    requires top { top_of design.now.walk.now < length design.now.modules.now }
    requires names { names.now ≡ texts_of_instances design.now }
    ensures distinct { OnOk result (AreDistinct names.now) }
    ensures refused { IfErr result (IsClash names.now) }
{
    design.modules.sound();
    if is_one_module(design) {
        return Ok(());
    }
    check_names(alloc, names)
}

// Whether no name of a module has a range.
fn has_no_range(modules: &Modules<'_>, m: usize) -> bool
    requires { m < length modules.now }
    ensures { result ≡ true → (i : ℕ) → i < length (module_at modules.now m).names → (name_at modules.now m i).range ≡ None }
{
    for i in 0..modules.name_count(m) {
        if modules.range(m, i).is_some() {
            return false;
        }
    }
    true
}

// Whether no module but the top is visited, and no name of it has a range. Then the names of the nets differ, as those of a module do.
fn has_plain_nets(design: &Design<'_>) -> bool
    requires walk { IsWalk design.now.modules.now design.now.walk.now }
    requires top { top_of design.now.walk.now < length design.now.modules.now }
    ensures { result ≡ true → AreDistinct (texts_of_nets design.now) }
{
    design.modules.sound();
    if is_one_module(design) {
        return has_no_range(design.modules, top_module(design));
    }
    false
}

/// Whether the names of the nets differ, or the first that an earlier one is the same as.
pub(crate) fn check_nets(
    alloc: Global,
    design: &Design<'_>,
    names: &FlatTexts,
) -> Result<(), LinkEnd>
    requires walk { IsWalk design.now.modules.now design.now.walk.now }
    requires top { top_of design.now.walk.now < length design.now.modules.now }
    requires names { names.now ≡ texts_of_nets design.now }
    ensures distinct { OnOk result (AreDistinct names.now) }
    ensures refused { IfErr result (IsClash names.now) }
{
    if has_plain_nets(design) {
        return Ok(());
    }
    check_names(alloc, names)
}
