//! What the references and values of a file stand for.
ghost use Rattle.std.specs.Prelude.{◌≡◌, ◌<◌, length, Some, IfOk, OnOk, IfErr};
ghost use Rattle.spef_text.specs.Heads.{IsHeadOf, text_of};
ghost use Rattle.spef_text.specs.Entries.{section_at};
ghost use Rattle.spef_nets.specs.Values.{AreGrains, triple_of};
ghost use Rattle.spef_nets.specs.Nodes.{named, net_at};
ghost use Rattle.delay_units.specs.Bounds.{most_farads, most_ohms};
ghost use Rattle.spef_nets.specs.Faults.{IsUnknownAt, IsValueAt};
ghost use Rattle.spef_nets.specs.NodeKeys.{IsKeyAt};
ghost use Rattle.spef_nets.specs.RefsOf.{refs_of};
ghost use Rattle.spef_nets.specs.Drafts.{AreSomeRefs, Refers, IsUnless};

use crate::amounts::{AmountFault, Grains, grains_of};
use crate::ends::SectionEnd;
use crate::net_name::NetName;
use crate::referred::Referred;
use corner_set::Pick;
use delay_units::{Farads, Ohms, Unit};
use edge_io::{OutOfMemory, Text};
use name_table::{NodeKey, NodeName};
use spef_text::{Head, ResolveEnd, SpefFile, WrittenNames};
use std::alloc::Global;

/// What sections are read from.
#[derive(Clone, Copy)]
pub struct Source<'r, 'f> {
    pub alloc: Global,
    pub file: &'r SpefFile<'f>,
    pub head: &'r Head,
    pub pick: Pick,
}

impl<'r, 'f> Source<'r, 'f> {
    /// What a token names, if its index is in the map.
    fn name_at(&self, token: u64, cut: bool) -> Result<Option<NodeName>, OutOfMemory>
        requires { IsHeadOf self.now.file.now self.now.head.now }
        ensures { IfOk result (λ node. node ≡ named self.now.file.now cut (text_of self.now.file.now token)) }
    {
        match self.head.resolve(self.alloc, self.file, token, cut) {
            Ok(node) => Ok(Some(node)),
            Err(ResolveEnd::UnknownIndex { token: _ }) => Ok(None),
            Err(ResolveEnd::OutOfMemory) => Err(OutOfMemory),
        }
    }

    /// Puts the name of the net that a token names in the place of another.
    pub fn put_net(&self, token: u64, net: &mut NetName<'r>) -> Result<(), SectionEnd>
        requires { IsHeadOf self.now.file.now self.now.head.now }
        ensures ok { OnOk result (net_at self.now.file.now token ≡ Some net.new) }
        ensures err { IfErr result (IsUnless (IsUnknownAt self.now.file.now token)) }
    {
        match WrittenNames::new(self.file, self.head).name(token, false) {
            Some(name) => {
                net.put(name.head);
                Ok(())
            }
            None => self.put_copy(token, net),
        }
    }

    // The same by a copy.
    fn put_copy(&self, token: u64, net: &mut NetName<'r>) -> Result<(), SectionEnd>
        requires { IsHeadOf self.now.file.now self.now.head.now }
        ensures ok { OnOk result (net_at self.now.file.now token ≡ Some net.new) }
        ensures err { IfErr result (IsUnless (IsUnknownAt self.now.file.now token)) }
    {
        let name = self.named_net(token)?;
        net.put_copy(self.alloc, name.bytes())?;
        Ok(())
    }

    // The name of a net by that of its node.
    fn named_net(&self, token: u64) -> Result<Text, SectionEnd>
        requires { IsHeadOf self.now.file.now self.now.head.now }
        ensures ok { IfOk result (λ net. net_at self.now.file.now token ≡ Some net) }
        ensures err { IfErr result (IsUnless (IsUnknownAt self.now.file.now token)) }
    {
        match self.name_at(token, false)? {
            Some(node) => Ok(node.head),
            None => Err(SectionEnd::UnknownIndex { token }),
        }
    }

    // What makes the node that a token names the one that it is. Of most nodes parts of the file tell it, and nothing is copied.
    fn key_at(
        &self,
        refs: &mut Referred<'r, 'f>,
        token: u64,
    ) -> Result<Option<NodeKey<'r>>, OutOfMemory>
        requires head { IsHeadOf self.now.file.now self.now.head.now }
        requires file { (refs_of refs.old).file ≡ self.now.file.now }
        ensures key { IfOk result (IsKeyAt self.now.file.now token) }
        ensures same { refs_of refs.new ≡ refs_of refs.old }
    {
        match refs.written(token) {
            Some(name) => Ok(Some(NodeKey::of_written(name))),
            None => self.named_key(token),
        }
    }

    // The same by the name.
    fn named_key(&self, token: u64) -> Result<Option<NodeKey<'r>>, OutOfMemory>
        requires { IsHeadOf self.now.file.now self.now.head.now }
        ensures { IfOk result (IsKeyAt self.now.file.now token) }
    {
        match self.name_at(token, true)? {
            Some(node) => Ok(Some(NodeKey::of(self.alloc, node)?)),
            None => Ok(None),
        }
    }

    /// The number of the spelling at a token, if its index is in the map. Where it is not found at once, the node that it names tells:
    /// that is one look-up at most.
    pub fn spelling_at(
        &self,
        refs: &mut Referred<'r, 'f>,
        net: &NetName<'_>,
        token: u64,
    ) -> Result<Option<usize>, OutOfMemory>
        requires head { IsHeadOf self.now.file.now self.now.head.now }
        requires refs { AreSomeRefs self.now.file.now net.now (refs_of refs.old) }
        ensures { IfOk result (Refers self.now.file.now net.now token (refs_of refs.old) (refs_of refs.new)) }
    {
        let word = self.file.text_of(token);
        match refs.find(word) {
            Some(spelling) => Ok(Some(spelling)),
            None => match self.key_at(refs, token)? {
                Some(key) => Ok(Some(refs.put(word, token, key, net)?)),
                None => Ok(None),
            },
        }
    }

    fn value_at(&self, unit: &Unit, most: u64, token: u64) -> Result<Grains, SectionEnd>
        ensures ok { IfOk result (AreGrains unit.now most (triple_of (text_of self.now.file.now token))) }
        ensures err { IfErr result (IsValueAt self.now.file.now unit.now most token) }
    {
        match grains_of(unit, most, self.file.text_of(token)) {
            Ok(grains) => Ok(grains),
            Err(AmountFault::BadNumber) => Err(SectionEnd::BadNumber { token }),
            Err(AmountFault::ValueTooLarge) => Err(SectionEnd::ValueTooLarge { token }),
        }
    }

    /// The capacitance at a token.
    pub fn farads_at(&self, token: u64) -> Result<Grains, SectionEnd>
        ensures ok { IfOk result (AreGrains self.now.head.now.cap_unit most_farads (triple_of (text_of self.now.file.now token))) }
        ensures err { IfErr result (IsValueAt self.now.file.now self.now.head.now.cap_unit most_farads token) }
    {
        self.value_at(&self.head.cap_unit(), Farads::MOST, token)
    }

    /// The resistance at a token.
    pub fn ohms_at(&self, token: u64) -> Result<Grains, SectionEnd>
        ensures ok { IfOk result (AreGrains self.now.head.now.res_unit most_ohms (triple_of (text_of self.now.file.now token))) }
        ensures err { IfErr result (IsValueAt self.now.file.now self.now.head.now.res_unit most_ohms token) }
    {
        self.value_at(&self.head.res_unit(), Ohms::MOST, token)
    }
}
