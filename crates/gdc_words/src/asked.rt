//! What the words ask for.
ghost use Rattle.std.specs.Prelude.{◌≡◌, IsTrue, Some, IfSome, IfNone, option_copied, option_map};
ghost use Rattle.std.specs.List.{find};
ghost use Rattle.gdc_words.specs.CommandLine.{same_key, needs_key, is_given, corner_key, libraries_of, mixed_key, first_missing, value_of, value_at, pair_at, is_decimal, IsValue, HasGrains, HasNoGrains, IsPortLoad, pick_from, missing_from, wire_slew_from, beyond_from, shape_of};
ghost use Rattle.gdc_words.specs.declared.commands.Key.TheVariants as keys;
ghost use Rattle.gdc_words.specs.Decimals.{IsGrains};
ghost use Rattle.gdc_words.specs.Sizes.{IsSize};

use crate::commands::{
    Command, Key, Libraries, Shape, beyond_of, missing_of, pick_of, shape_of, wire_slew_of,
};
use crate::decimals::grains_of;
use crate::sizes::size_of;
use corner_set::{Beyond, Missing, Pick, WireSlew};
use edge_io::Text;
use std::marker::Model;

/// A key that stands, and its value.
#[derive(Drop)]
pub struct Given {
    pub key: Key,
    pub value: Text,
}

/// The key stands among these.
pub(crate) fn stands(given: &[Given], key: Key) -> bool
    ensures { result ≡ is_given given.now key }
{
    given.iter().any(|g| g.key == key)
}

/// The pair of a key that stands.
fn pair_of(given: &[Given], key: Key) -> Option<&Given>
    ensures { option_copied result ≡ find (λ g. same_key g.key key) given.now }
{
    given.iter().find(|pair| pair.key == key)
}

/// The pair of the key that has this word, where it stands.
fn pair_at<'a>(given: &'a [Given], word: &[u8]) -> Option<&'a Given>
    ensures { option_copied result ≡ pair_at given.now word.now }
{
    given.iter().find(|pair| pair.key.word() == word)
}

/// The first key of a library for a corner that stands.
fn corner_key(given: &[Given]) -> Option<Key>
    ensures { result ≡ corner_key given.now }
{
    [Key::LibMin, Key::LibTyp, Key::LibMax]
        .iter()
        .copied()
        .find(|key| stands(given, *key))
}

/// The libraries that are given: one for each corner where such a key stands.
fn libraries_of(given: &[Given]) -> Libraries
    ensures { result ≡ libraries_of given.now }
{
    if corner_key(given).is_some() {
        Libraries::EachCorner
    } else {
        Libraries::One
    }
}

/// The library of a corner that stands together with the key of one library, or of the member of a triple that one corner takes.
pub(crate) fn mixed_key(given: &[Given]) -> Option<Key>
    ensures { result ≡ mixed_key given.now }
{
    if stands(given, Key::Lib) || stands(given, Key::Triple) {
        corner_key(given)
    } else {
        None
    }
}

/// The first needed key that does not stand.
pub(crate) fn first_missing(command: Command, given: &[Given]) -> Option<Key>
    ensures { result ≡ first_missing command given.now }
{
    command
        .needed_keys(libraries_of(given))
        .iter()
        .copied()
        .find(|key| !stands(given, *key))
}

/// What the words ask for: a command, and each key that stands with its value. Every key that the command needs stands, no two stand
/// that do not stand together, and each value has the form that its key wants.
#[derive(Drop)]
pub struct Asked {
    pub(crate) command: Command,
    pub(crate) given: Vec<Given>,
}

impl Model for Asked {
    ghost use Rattle.gdc_words.specs.CommandLine.{Request, IsWhole};

    ghost Value = { Request };

    ghost view = { λ a. record { command = a.command; given = a.given.items } };

    ghost invariant = { λ a. IsWhole (record { command = a.command; given = a.given.items }) };
}

impl Asked {
    /// The command.
    pub fn command(&self) -> Command
        ensures { result ≡ self.now.command }
    {
        self.command
    }

    /// The libraries that the words name: one for each corner where the key of such a library stands.
    pub fn libraries(&self) -> Libraries
        ensures { result ≡ libraries_of self.now.given }
    {
        libraries_of(&self.given)
    }

    /// The value of the key that has this word, where it stands.
    pub fn value(&self, key: &[u8]) -> Option<&Text>
        ensures { option_copied result ≡ value_at self.now.given key.now }
    {
        pair_at(&self.given, key).map(|pair| &pair.value)
    }

    /// The value of a key that the command needs.
    pub fn needed(&self, key: Key) -> &Text
        requires { IsTrue (needs_key self.now.command self.now.given key) }
        ensures value { result.now ≡ value_of self.now.given key }
        ensures formed { IsValue key result.now }
    {
        match pair_of(&self.given, key) {
            Some(pair) => &pair.value,
            None => unreachable!(),
        }
    }

    /// The grains of a decimal key that stands: attoseconds of `--slew` and `--input-slew`, 10^-21 F of `--load` and `--port-load`, each
    /// rounded half up. None for another key, and for one that does not stand.
    pub fn grains(&self, key: &[u8]) -> Option<u64>
        ensures some { IfSome result (HasGrains self.now.given key.now) }
        ensures none { IfNone result (HasNoGrains self.now.given key.now) }
    {
        match pair_at(&self.given, key) {
            Some(pair) if pair.key.is_decimal() => grains_of(pair.value.bytes()),
            _ => None,
        }
    }

    /// The grains of a decimal key that the command needs.
    pub fn needed_grains(&self, key: Key) -> u64
        requires needed { IsTrue (needs_key self.now.command self.now.given key) }
        requires decimal { IsTrue (is_decimal key) }
        ensures { IsGrains (value_of self.now.given key) result }
    {
        match grains_of(self.needed(key).bytes()) {
            Some(grains) => grains,
            None => unreachable!(),
        }
    }

    /// The shape of a trial.
    pub fn shape(&self) -> Shape
        requires needed { IsTrue (needs_key self.now.command self.now.given keys.Shape) }
        ensures { Some result ≡ shape_of (value_of self.now.given keys.Shape) }
    {
        match shape_of(self.needed(Key::Shape).bytes()) {
            Some(shape) => shape,
            None => unreachable!(),
        }
    }

    /// The size of a trial, from 1 to 600,000.
    pub fn size(&self) -> u32
        requires needed { IsTrue (needs_key self.now.command self.now.given keys.Size) }
        ensures { IsSize (value_of self.now.given keys.Size) result }
    {
        match size_of(self.needed(Key::Size).bytes()) {
            Some(size) => size,
            None => unreachable!(),
        }
    }

    /// The member of a triple that counts: the typical one where the words ask for no other.
    pub fn pick(&self) -> Pick
        ensures { result ≡ pick_from self.now.given }
    {
        let asked = pair_of(&self.given, Key::Triple).and_then(|pair| pick_of(pair.value.bytes()));
        asked.unwrap_or(Pick::Typ)
    }

    /// The capacitance at an output port, in 10^-21 F: 0 where the words ask for no other.
    #[tactic(auto, using(crate::specs::CommandLine::given_load, crate::specs::CommandLine::no_load))]
    pub fn port_load(&self) -> u64
        ensures { IsPortLoad self.now.given result }
    {
        match self.grains(Key::PortLoad.word()) {
            Some(grains) => grains,
            None => 0,
        }
    }

    /// What a net is that has no section: it is refused where the words ask for no other.
    pub fn missing(&self) -> Missing
        ensures { result ≡ missing_from self.now.given }
    {
        let asked = pair_of(&self.given, Key::Missing).and_then(|pair| missing_of(
            pair.value.bytes(),
        ));
        asked.unwrap_or(Missing::Refuse)
    }

    /// What a wire does to a slew: nothing where the words ask for no other.
    pub fn wire_slew(&self) -> WireSlew
        ensures { result ≡ wire_slew_from self.now.given }
    {
        let asked = pair_of(&self.given, Key::WireSlew).and_then(|pair| wire_slew_of(
            pair.value.bytes(),
        ));
        asked.unwrap_or(WireSlew::Same)
    }

    /// What is done past the end of an axis: the look-up is refused where the words ask for no other.
    pub fn beyond(&self) -> Beyond
        ensures { result ≡ beyond_from self.now.given }
    {
        let asked = pair_of(&self.given, Key::Outside).and_then(|pair| beyond_of(
            pair.value.bytes(),
        ));
        asked.unwrap_or(Beyond::Refuse)
    }
}
