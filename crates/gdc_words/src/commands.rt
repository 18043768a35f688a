//! The commands and the keys, with the tables that say which key stands with which command.
ghost use Rattle.std.specs.Prelude.{◌≡◌, ◌↔◌, IsTrue};
ghost use Rattle.gdc_words.specs.CommandLine.{command_of, key_of, keys, key_word, takes_key, needed_keys, is_decimal, IsValue, pick_of, missing_of, wire_slew_of, beyond_of, shape_of};

use crate::decimals::grains_of;
use crate::sizes::size_of;
use corner_set::{Beyond, Missing, Pick, WireSlew};

/// A command of the program, which is its first word.
#[derive(Clone, Copy)]
pub enum Command {
    /// `wires`: the delays of the wires of a SPEF file.
    Wires,
    /// `calc`: the delays of the wires and of the cells of a design.
    Calc,
    /// `show`: the rows of an SDF file, and their summary.
    Show,
    /// `lookup`: the delay and the transition of each arc of a library's cell, at one slew and one load.
    Lookup,
    /// `flat`: the instances and the nets of a design, with what drives them.
    Flat,
    /// `trial`: the summary of the delays of a design that is made by its shape and size.
    Trial,
    /// `--help`: the commands, their keys, and the statuses.
    Help,
    /// `--version`: the version of the program.
    Version,
}

/// A key, which stands before its value.
#[derive(Clone, Copy)]
pub enum Key {
    /// `--spef`: the name of a SPEF file.
    Spef,
    /// `--triple`: the member of a triple of a SPEF file that counts, `min`, `typ` or `max`.
    Triple,
    /// `--sdf`: the name of an SDF file.
    Sdf,
    /// `--netlist`: the name of a Verilog file.
    Netlist,
    /// `--top`: the name of the module of a netlist whose instances and nets are the design.
    Top,
    /// `--lib`: the name of a Liberty file.
    Lib,
    /// `--lib-min`: the name of the Liberty file of the corner `min`.
    LibMin,
    /// `--lib-typ`: the name of the Liberty file of the corner `typ`.
    LibTyp,
    /// `--lib-max`: the name of the Liberty file of the corner `max`.
    LibMax,
    /// `--cell`: the name of a cell of the library.
    Cell,
    /// `--slew`: a transition in picoseconds, from 0 to a microsecond.
    Slew,
    /// `--load`: a capacitance in femtofarads, from 0 to a nanofarad.
    Load,
    /// `--input-slew`: the transition at the input ports in picoseconds, from 0 to a microsecond.
    InputSlew,
    /// `--port-load`: the capacitance at an output port in femtofarads, from 0 to a nanofarad.
    PortLoad,
    /// `--missing`: what a net is that has no section in the SPEF file, `refuse` or `zero`.
    Missing,
    /// `--wire-slew`: what a wire does to a slew, `none` or `rss`.
    WireSlew,
    /// `--outside`: what is done past the end of a table's axis, `refuse`, `edge` or `extend`.
    Outside,
    /// `--shape`: the shape of a trial, `chain` or `block`.
    Shape,
    /// `--size`: the size of a trial, from 1 to 600,000.
    Size,
}

/// The shape of a trial.
#[derive(Clone, Copy)]
pub enum Shape {
    /// Two inverters, with so many resistors between them, one behind the other.
    Chain,
    /// So many inverters, one behind the other.
    Block,
}

/// The libraries that the words name.
#[derive(Clone, Copy)]
pub enum Libraries {
    /// One library, of the key `--lib`.
    One,
    /// A library for each corner, of the keys `--lib-min`, `--lib-typ` and `--lib-max`.
    EachCorner,
}

/// The member of a triple that a word names.
pub(crate) fn pick_of(word: &[u8]) -> Option<Pick>
    ensures { result ≡ pick_of word.now }
{
    if word == b"min".as_slice() {
        Some(Pick::Min)
    } else if word == b"typ".as_slice() {
        Some(Pick::Typ)
    } else if word == b"max".as_slice() {
        Some(Pick::Max)
    } else {
        None
    }
}

/// What a word says that a net is which has no section.
pub(crate) fn missing_of(word: &[u8]) -> Option<Missing>
    ensures { result ≡ missing_of word.now }
{
    if word == b"refuse".as_slice() {
        Some(Missing::Refuse)
    } else if word == b"zero".as_slice() {
        Some(Missing::Zero)
    } else {
        None
    }
}

/// What a word says that a wire does to a slew.
pub(crate) fn wire_slew_of(word: &[u8]) -> Option<WireSlew>
    ensures { result ≡ wire_slew_of word.now }
{
    if word == b"none".as_slice() {
        Some(WireSlew::Same)
    } else if word == b"rss".as_slice() {
        Some(WireSlew::Rss)
    } else {
        None
    }
}

/// What a word says is done past the end of an axis.
pub(crate) fn beyond_of(word: &[u8]) -> Option<Beyond>
    ensures { result ≡ beyond_of word.now }
{
    if word == b"refuse".as_slice() {
        Some(Beyond::Refuse)
    } else if word == b"edge".as_slice() {
        Some(Beyond::Edge)
    } else if word == b"extend".as_slice() {
        Some(Beyond::Extend)
    } else {
        None
    }
}

/// The shape that a word names.
pub(crate) fn shape_of(word: &[u8]) -> Option<Shape>
    ensures { result ≡ shape_of word.now }
{
    if word == b"chain".as_slice() {
        Some(Shape::Chain)
    } else if word == b"block".as_slice() {
        Some(Shape::Block)
    } else {
        None
    }
}

impl Command {
    /// The command that a word names.
    pub(crate) fn of(word: &[u8]) -> Option<Command>
        ensures { result ≡ command_of word.now }
    {
        if word == b"wires".as_slice() {
            Some(Command::Wires)
        } else if word == b"calc".as_slice() {
            Some(Command::Calc)
        } else if word == b"show".as_slice() {
            Some(Command::Show)
        } else if word == b"lookup".as_slice() {
            Some(Command::Lookup)
        } else if word == b"flat".as_slice() {
            Some(Command::Flat)
        } else if word == b"trial".as_slice() {
            Some(Command::Trial)
        } else if word == b"--help".as_slice() {
            Some(Command::Help)
        } else if word == b"--version".as_slice() {
            Some(Command::Version)
        } else {
            None
        }
    }

    /// The command takes a key.
    pub(crate) fn takes(self, key: Key) -> bool
        ensures { result ≡ takes_key self key }
    {
        match (self, key) {
            (Command::Wires, Key::Spef | Key::Triple) => true,
            (
                Command::Calc,
                Key::Netlist
                | Key::Top
                | Key::Spef
                | Key::InputSlew
                | Key::Lib
                | Key::LibMin
                | Key::LibTyp
                | Key::LibMax
                | Key::PortLoad
                | Key::Triple
                | Key::Missing
                | Key::WireSlew
                | Key::Outside,
            ) => true,
            (Command::Show, Key::Sdf) => true,
            (Command::Lookup, Key::Lib | Key::Cell | Key::Slew | Key::Load | Key::Outside) => true,
            (Command::Flat, Key::Netlist | Key::Top | Key::Lib) => true,
            (Command::Trial, Key::Shape | Key::Size) => true,
            _ => false,
        }
    }

    /// The keys that the command needs beside such libraries, in the order in which a missing one is named. The calculation alone takes a
    /// library for each corner.
    pub(crate) fn needed_keys(self, libraries: Libraries) -> &'static [Key]
        ensures { result.now ≡ needed_keys self libraries }
    {
        match (self, libraries) {
            (Command::Wires, _) => &[Key::Spef],
            (Command::Calc, Libraries::One) => {
                &[Key::Netlist, Key::Top, Key::Spef, Key::InputSlew, Key::Lib]
            }
            (Command::Calc, Libraries::EachCorner) => &[
                Key::Netlist,
                Key::Top,
                Key::Spef,
                Key::InputSlew,
                Key::LibMin,
                Key::LibTyp,
                Key::LibMax,
            ],
            (Command::Show, _) => &[Key::Sdf],
            (Command::Lookup, _) => &[Key::Lib, Key::Cell, Key::Slew, Key::Load],
            (Command::Flat, _) => &[Key::Netlist, Key::Top, Key::Lib],
            (Command::Trial, _) => &[Key::Shape, Key::Size],
            (Command::Help, _) => &[],
            (Command::Version, _) => &[],
        }
    }
}

impl Key {
    /// All keys.
    fn all() -> &'static [Key]
        ensures { result.now ≡ keys }
    {
        &[
            Key::Spef,
            Key::Triple,
            Key::Sdf,
            Key::Netlist,
            Key::Top,
            Key::Lib,
            Key::LibMin,
            Key::LibTyp,
            Key::LibMax,
            Key::Cell,
            Key::Slew,
            Key::Load,
            Key::InputSlew,
            Key::PortLoad,
            Key::Missing,
            Key::WireSlew,
            Key::Outside,
            Key::Shape,
            Key::Size,
        ]
    }

    /// The key that a word names.
    pub(crate) fn of(word: &[u8]) -> Option<Key>
        ensures { result ≡ key_of word.now }
    {
        Key::all().iter().copied().find(|key| key.word() == word)
    }

    /// The word of a key.
    pub fn word(self) -> &'static [u8]
        ensures { result.now ≡ key_word self }
    {
        match self {
            Key::Spef => b"--spef",
            Key::Triple => b"--triple",
            Key::Sdf => b"--sdf",
            Key::Netlist => b"--netlist",
            Key::Top => b"--top",
            Key::Lib => b"--lib",
            Key::LibMin => b"--lib-min",
            Key::LibTyp => b"--lib-typ",
            Key::LibMax => b"--lib-max",
            Key::Cell => b"--cell",
            Key::Slew => b"--slew",
            Key::Load => b"--load",
            Key::InputSlew => b"--input-slew",
            Key::PortLoad => b"--port-load",
            Key::Missing => b"--missing",
            Key::WireSlew => b"--wire-slew",
            Key::Outside => b"--outside",
            Key::Shape => b"--shape",
            Key::Size => b"--size",
        }
    }

    /// The values of the key are decimals, read as grains.
    pub(crate) fn is_decimal(self) -> bool
        ensures { result ≡ is_decimal self }
    {
        match self {
            Key::Slew | Key::Load | Key::InputSlew | Key::PortLoad => true,
            _ => false,
        }
    }

    /// A value has the form that the key wants.
    pub(crate) fn is_value(self, value: &[u8]) -> bool
        ensures { IsTrue result ↔ IsValue self value.now }
    {
        match self {
            Key::Spef => !value.is_empty(),
            Key::Triple => pick_of(value).is_some(),
            Key::Sdf => !value.is_empty(),
            Key::Netlist => !value.is_empty(),
            Key::Top => !value.is_empty(),
            Key::Lib => !value.is_empty(),
            Key::LibMin => !value.is_empty(),
            Key::LibTyp => !value.is_empty(),
            Key::LibMax => !value.is_empty(),
            Key::Cell => !value.is_empty(),
            Key::Slew => grains_of(value).is_some(),
            Key::Load => grains_of(value).is_some(),
            Key::InputSlew => grains_of(value).is_some(),
            Key::PortLoad => grains_of(value).is_some(),
            Key::Missing => missing_of(value).is_some(),
            Key::WireSlew => wire_slew_of(value).is_some(),
            Key::Outside => beyond_of(value).is_some(),
            Key::Shape => shape_of(value).is_some(),
            Key::Size => size_of(value).is_some(),
        }
    }
}
