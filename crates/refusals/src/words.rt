//! The words of the line that a refusal is printed as.
ghost use Rattle.std.specs.Prelude.{◌≡◌, ◌∷◌, [], codes, decimal};
ghost use Rattle.refusals.specs.RefusalLine.{words_of, words_text, limit_words, node_text};
ghost use Rattle.refusals.specs.Words.{word_line, line_of_words};

use crate::kinds::{
    axis_word, cause_words, corner_word, edge_word, fault_words, index_words, number_words,
    part_word,
};
use crate::refusal::{LimitKind, Refusal};
use edge_io::Text;
use name_table::NodeName;

/// A word of a line: a text, a number, a slew in attoseconds, a node, or a pin of an instance; or nothing, or the nets of a loop.
#[derive(Clone, Copy)]
pub enum Word<'a> {
    Nothing,
    Text(&'a [u8]),
    Number(u128),
    Grains(i64),
    Node(&'a NodeName),
    Pin(&'a [u8], &'a [u8]),
    Nets(&'a [Text]),
}

// At most four words, as a line has them: with nothing behind the last.
fn few<'a>(first: Word<'a>, second: Word<'a>, third: Word<'a>, fourth: Word<'a>) -> [Word<'a>; 9]
    ensures { line_of_words result ≡ line_of_words (first.entry ∷ second.entry ∷ third.entry ∷ fourth.entry ∷ []) }
{
    let none = Word::Nothing;
    [first, second, third, fourth, none, none, none, none, none]
}

// The name of a refusal, and a token.
fn token_words<'a>(head: &'a [u8], token: u64) -> [Word<'a>; 9]
    ensures { line_of_words result ≡ words_text (head.now ∷ codes "token" ∷ decimal token ∷ []) }
{
    let token = Word::Number(token as u128);
    few(Word::Text(head), Word::Text(b"token"), token, Word::Nothing)
}

// The name of a refusal, what it is about, and a token.
fn token_words_of<'a>(head: &'a [u8], word: &'a [u8], token: u64) -> [Word<'a>; 9]
    ensures { line_of_words result ≡ words_text (head.now ∷ word.now ∷ codes "token" ∷ decimal token ∷ []) }
{
    let token = Word::Number(token as u128);
    few(
        Word::Text(head),
        Word::Text(word),
        Word::Text(b"token"),
        token,
    )
}

// The name of a refusal, and what it is about.
fn name_words<'a>(head: &'a [u8], name: &'a [u8]) -> [Word<'a>; 9]
    ensures { line_of_words result ≡ words_text (head.now ∷ name.now ∷ []) }
{
    few(
        Word::Text(head),
        Word::Text(name),
        Word::Nothing,
        Word::Nothing,
    )
}

// The name of a refusal, and two names that it is about.
fn names_words<'a>(head: &'a [u8], name: &'a [u8], other: &'a [u8]) -> [Word<'a>; 9]
    ensures { line_of_words result ≡ words_text (head.now ∷ name.now ∷ other.now ∷ []) }
{
    few(
        Word::Text(head),
        Word::Text(name),
        Word::Text(other),
        Word::Nothing,
    )
}

// The name of a refusal, a net and a node of it.
fn node_words<'a>(head: &'a [u8], net: &'a Text, node: &'a NodeName) -> [Word<'a>; 9]
    ensures { line_of_words result ≡ words_text (head.now ∷ net.now ∷ node_text node.now.head node.now.tail ∷ []) }
{
    let net = Word::Text(net.bytes());
    few(Word::Text(head), net, Word::Node(node), Word::Nothing)
}

impl LimitKind {
    fn words(&self) -> [Word<'_>; 9]
        ensures { line_of_words result ≡ words_text (limit_words self.now) }
    {
        match self {
            LimitKind::File(key) => names_words(b"E50 limit", b"file", key.word()),
            LimitKind::Depth => name_words(b"E50 limit", b"depth"),
            LimitKind::Instances => name_words(b"E50 limit", b"instances"),
            LimitKind::Names => name_words(b"E50 limit", b"names"),
            LimitKind::Pins => name_words(b"E50 limit", b"pins"),
            LimitKind::Net(net) => names_words(b"E50 limit", b"net", net.bytes()),
        }
    }
}

impl Refusal {
    /// The words of the line of a run with so many corners.
    pub fn words(&self, corners: usize) -> [Word<'_>; 9]
        ensures { line_of_words result ≡ words_text (words_of corners self.now) }
    {
        let none = Word::Nothing;
        match self {
            Refusal::NetlistSyntax { token } => token_words(b"E01 netlist syntax", *token),
            Refusal::NotStructural { word, token } => {
                token_words_of(b"E02 not structural", word.bytes(), *token)
            }
            Refusal::LibrarySyntax {
                corner,
                token,
                line,
                cause,
            } => [
                Word::Text(b"E03 library syntax"),
                Word::Text(corner_word(corners, corner)),
                Word::Text(b"token"),
                Word::Number(*token as u128),
                Word::Text(b"line"),
                Word::Number(*line as u128),
                Word::Text(cause_words(cause)),
                none,
                none,
            ],
            Refusal::SpefSyntax { token } => token_words(b"E04 spef syntax", *token),
            Refusal::SpefForm { word, token } => {
                token_words_of(b"E05 spef form", word.bytes(), *token)
            }
            Refusal::RepeatedName { name } => name_words(b"E06 repeated name", name.bytes()),
            Refusal::BadRange { name } => name_words(b"E07 bad range", name.bytes()),
            Refusal::PortDirection { name } => name_words(b"E08 port direction", name.bytes()),
            Refusal::NoTop { name } => name_words(b"E10 no top module", name.bytes()),
            Refusal::UnknownCell { cell, corner } => {
                let corner = corner_word(corners, corner);
                names_words(b"E11 unknown cell", cell.bytes(), corner)
            }
            Refusal::UnknownPort { instance, port } => {
                names_words(b"E12 unknown port", instance.bytes(), port.bytes())
            }
            Refusal::Width {
                instance,
                port,
                want,
                got,
            } => [
                Word::Text(b"E13 width"),
                Word::Text(instance.bytes()),
                Word::Text(port.bytes()),
                Word::Text(b"want"),
                Word::Number(*want as u128),
                Word::Text(b"got"),
                Word::Number(*got as u128),
                none,
                none,
            ],
            Refusal::Recursive { module } => name_words(b"E14 recursive module", module.bytes()),
            Refusal::NameClash(name) => name_words(b"E15 name clash", name.bytes()),
            Refusal::InoutPin { instance, pin } => {
                names_words(b"E16 inout pin", instance.bytes(), pin.bytes())
            }
            Refusal::SeveralDrivers(net) => name_words(b"E17 several drivers", net.bytes()),
            Refusal::CellFault {
                cell,
                corner,
                fault,
            } => few(
                Word::Text(b"E20 cell"),
                Word::Text(cell.bytes()),
                Word::Text(corner_word(corners, corner)),
                Word::Text(fault_words(fault)),
            ),
            Refusal::CornerShape { cell, fault } => [
                Word::Text(b"E21 corner shape"),
                Word::Text(cell.bytes()),
                Word::Text(corner_word(corners, &fault.corner)),
                Word::Text(b"entry"),
                Word::Number(fault.place as u128),
                none,
                none,
                none,
                none,
            ],
            Refusal::SpefNumber { kind, token } => {
                token_words_of(b"E30 spef number", number_words(kind), *token)
            }
            Refusal::NameIndex { kind, token } => {
                token_words_of(b"E31 name index", index_words(kind), *token)
            }
            Refusal::RepeatedNet { net } => name_words(b"E32 repeated net", net.bytes()),
            Refusal::MissingNet { net } => name_words(b"E33 missing net", net.bytes()),
            Refusal::StrangePin { net, pin } => node_words(b"E34 strange pin", net, pin),
            Refusal::Unreached { net, node } => node_words(b"E35 unreached node", net, node),
            Refusal::Mesh { net, resistor: _ } => name_words(b"E36 mesh", net.bytes()),
            Refusal::ForeignCoupling { net, token } => {
                token_words_of(b"E37 foreign coupling", net.bytes(), *token)
            }
            Refusal::Loop { nets } => {
                let nets = Word::Nets(nets.as_slice());
                few(Word::Text(b"E40 loop"), nets, none, none)
            }
            Refusal::Outside {
                instance,
                from,
                to,
                edge,
                corner,
                part,
                axis,
                value,
            } => [
                Word::Text(b"E41 outside"),
                Word::Text(instance.bytes()),
                Word::Text(from.bytes()),
                Word::Text(to.bytes()),
                Word::Text(edge_word(edge)),
                Word::Text(corner_word(corners, corner)),
                Word::Text(part_word(part)),
                Word::Text(axis_word(axis)),
                Word::Number(*value as u128),
            ],
            Refusal::SlewLimit {
                net,
                instance,
                pin,
                edge,
                corner,
                slew,
                elmore,
            } => [
                Word::Text(b"E42 slew limit"),
                Word::Text(net.bytes()),
                Word::Pin(instance.bytes(), pin.bytes()),
                Word::Text(edge_word(edge)),
                Word::Text(corner_word(corners, corner)),
                Word::Grains(slew.0),
                Word::Number(*elmore),
                none,
                none,
            ],
            Refusal::PastTime {
                instance,
                from,
                to,
                edge,
                corner,
                part,
            } => [
                Word::Text(b"E43 past time"),
                Word::Text(instance.bytes()),
                Word::Text(from.bytes()),
                Word::Text(to.bytes()),
                Word::Text(edge_word(edge)),
                Word::Text(corner_word(corners, corner)),
                Word::Text(part_word(part)),
                none,
                none,
            ],
            Refusal::Limit(kind) => kind.words(),
            Refusal::NoDriver { net } => name_words(b"E60 no driver", net.bytes()),
            Refusal::ManyDrivers { net } => name_words(b"E61 several drivers", net.bytes()),
            Refusal::SdfSyntax { token } => token_words(b"E62 sdf syntax", *token),
        }
    }
}
