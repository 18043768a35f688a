//! The names of instances, as texts and as SDF spells them.
ghost use Rattle.std.specs.Prelude.{◌≡◌, true, ◌<◌, ◌∷◌, ◌++◌, [], length, slice_get, Some, IfOk, OnOk};
ghost use Rattle.name_table.specs.SdfNames.{part};
ghost use Rattle.netlist_link.specs.InstanceNames.{spelled_or};

use crate::flat_names::{is_plain_name, push_spelled};
use edge_io::{OutOfMemory, are_equal};
use std::alloc::Global;
use std::marker::Model;
use text_table::FlatTexts;

/// The names of instances. Contracts see them as texts and as SDF spells them. SDF spells most names as they are: as long as it does so
/// with each, the spellings are not kept beside the texts.
#[derive(Drop)]
pub(crate) struct InstanceNames {
    texts: FlatTexts,
    /// the spelling of each name, or none where each name is spelled as it is
    spellings: FlatTexts,
}

impl Model for InstanceNames {
    ghost use Rattle.netlist_link.specs.InstanceNames.{KeptNames, spelled_or};

    ghost Value = { KeptNames };

    ghost view = { λ names. record { texts = names.texts; spellings = spelled_or names.texts names.spellings } };
}

// Whether the spelling of no name is kept so far, nor needs to be for a name behind a path.
#[tactic(auto, using(crate::proofs::Spellings::none_kept))]
fn needs_none(spellings: &FlatTexts, path: &[u8], spelled_path: &[u8], name: &[u8]) -> bool
    ensures none { result ≡ true → spellings.now ≡ [] }
    ensures alike { result ≡ true → spelled_path.now ++ part name.now ≡ path.now ++ name.now }
{
    if spellings.len() > 0 {
        return false;
    }
    if are_equal(path, spelled_path) {
        return is_plain_name(name);
    }
    false
}

// Puts copies of texts where there are none.
fn copy_texts(texts: &FlatTexts, copies: &mut FlatTexts) -> Result<(), OutOfMemory>
    requires { copies.old ≡ [] }
    ensures { OnOk result (copies.new ≡ texts.now) }
{
    for i in 0..texts.len() {
        copies.add(texts.text(i))?;
    }
    Ok(())
}

// Keeps the spelling of each name, which is as its text where none is kept so far.
#[tactic(auto, using(crate::proofs::Spellings::none_kept, crate::proofs::Spellings::some_kept, crate::proofs::Spellings::all_alike))]
fn keep_spellings(texts: &FlatTexts, spellings: &mut FlatTexts) -> Result<(), OutOfMemory>
    ensures { OnOk result (spellings.new ≡ spelled_or texts.now spellings.old) }
{
    if spellings.len() > 0 {
        return Ok(());
    }
    copy_texts(texts, spellings)
}

impl InstanceNames {
    /// No name yet, with room for so many.
    pub fn with_room(alloc: Global, many: usize) -> Result<InstanceNames, OutOfMemory>
        ensures texts { IfOk result (λ names. names.texts ≡ []) }
        ensures spellings { IfOk result (λ names. names.spellings ≡ []) }
    {
        Ok(InstanceNames {
            texts: FlatTexts::with_room(alloc, many)?,
            spellings: FlatTexts::new(alloc),
        })
    }

    /// All names as texts.
    pub fn texts(&self) -> &FlatTexts
        ensures { result.now ≡ self.now.texts }
    {
        &self.texts
    }

    /// A name as text.
    pub fn text(&self, i: usize) -> &[u8]
        requires { i < length self.now.texts }
        ensures { slice_get self.now.texts i ≡ Some result.now }
    {
        self.texts.text(i)
    }

    /// A name as SDF spells it.
    #[tactic(auto, using(crate::proofs::Spellings::some_kept, crate::proofs::Spellings::all_alike))]
    pub fn spelling(&self, i: usize) -> &[u8]
        requires { i < length self.now.spellings }
        ensures { slice_get self.now.spellings i ≡ Some result.now }
    {
        if self.spellings.len() > 0 {
            return self.spellings.text(i);
        }
        self.texts.text(i)
    }

    /// Puts a name at the end, behind the path of the module in which it stands.
    #[tactic(auto, using(crate::proofs::Spellings::alike_push, crate::proofs::Spellings::kept_push))]
    pub fn push(
        &mut self,
        alloc: Global,
        path: &[u8],
        spelled_path: &[u8],
        name: &[u8],
    ) -> Result<(), OutOfMemory>
        ensures texts { OnOk result (self.new.texts ≡ self.old.texts ++ (path.now ++ name.now) ∷ []) }
        ensures spellings { OnOk result (self.new.spellings ≡ self.old.spellings ++ (spelled_path.now ++ part name.now) ∷ []) }
    {
        if needs_none(&self.spellings, path, spelled_path, name) {
            return self.texts.push(path, name);
        }
        keep_spellings(&self.texts, &mut self.spellings)?;
        push_spelled(alloc, spelled_path, name, &mut self.spellings)?;
        self.texts.push(path, name)
    }
}
