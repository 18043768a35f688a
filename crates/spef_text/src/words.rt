//! The keywords of SPEF.
ghost use Rattle.std.specs.Prelude.{◌≡◌, map, None, if◌then◌else◌, IfSome, Some};
ghost use Rattle.spef_text.specs.Classes.{word_of, keywords, lookup, lone_word, sifted_word};

use edge_io::are_equal;

/// What a keyword stands for in the grammar.
#[derive(Clone, Copy)]
pub enum Word {
    /// `*SPEF`
    Spef,
    /// A keyword of the head that has no line of its own in the grammar, as `*DATE`.
    Free,
    /// `*DESIGN`, which is free too; the first token behind it is the design's name.
    Design,
    /// `*DIVIDER`
    Divider,
    /// `*DELIMITER`
    Delimiter,
    /// `*BUS_DELIMITER`
    BusDelimiter,
    /// `*C_UNIT`
    CapUnit,
    /// `*R_UNIT`
    ResUnit,
    /// `*NAME_MAP`
    NameMap,
    /// `*D_NET`
    Net,
    /// `*R_NET`, `*R_PNET`, `*D_PNET`, `*DEFINE` or `*PDEFINE`
    Refused,
    /// `*INDUC`, which is refused too, but is no keyword of the head.
    Induc,
    /// `*L`
    Load,
    /// `*P`
    Port,
    /// `*I`
    Internal,
    /// `*N`
    Node,
    /// `*CONN`
    Conn,
    /// `*CAP`
    Cap,
    /// `*RES`
    Res,
    /// `*END`
    End,
    /// `*V`, the confidence in a net's values
    Confidence,
}

/// The keywords that the grammar tells from others, those first that stand in each net.
const KEYWORDS: [(&[u8], Word); 35] = [
    (b"*I", Word::Internal),
    (b"*P", Word::Port),
    (b"*N", Word::Node),
    (b"*L", Word::Load),
    (b"*V", Word::Confidence),
    (b"*CONN", Word::Conn),
    (b"*CAP", Word::Cap),
    (b"*RES", Word::Res),
    (b"*END", Word::End),
    (b"*D_NET", Word::Net),
    (b"*SPEF", Word::Spef),
    (b"*DESIGN", Word::Design),
    (b"*DATE", Word::Free),
    (b"*VENDOR", Word::Free),
    (b"*PROGRAM", Word::Free),
    (b"*VERSION", Word::Free),
    (b"*DESIGN_FLOW", Word::Free),
    (b"*DIVIDER", Word::Divider),
    (b"*DELIMITER", Word::Delimiter),
    (b"*BUS_DELIMITER", Word::BusDelimiter),
    (b"*T_UNIT", Word::Free),
    (b"*C_UNIT", Word::CapUnit),
    (b"*R_UNIT", Word::ResUnit),
    (b"*L_UNIT", Word::Free),
    (b"*NAME_MAP", Word::NameMap),
    (b"*POWER_NETS", Word::Free),
    (b"*GROUND_NETS", Word::Free),
    (b"*PORTS", Word::Free),
    (b"*PHYSICAL_PORTS", Word::Free),
    (b"*R_NET", Word::Refused),
    (b"*R_PNET", Word::Refused),
    (b"*D_PNET", Word::Refused),
    (b"*DEFINE", Word::Refused),
    (b"*PDEFINE", Word::Refused),
    (b"*INDUC", Word::Induc),
];

/// What stands in the table beside the text.
fn look_up(table: &[(&[u8], Word)], text: &[u8]) -> Option<Word>
    ensures { result ≡ lookup (map (λ k. (k.0.now, k.1)) table.now) text.now }
{
    for keyword in table {
        if are_equal(keyword.0, text) {
            return Some(keyword.1);
        }
    }
    None
}

/// The keyword of a star and this letter, if there is one.
#[inline]
fn lone_word(letter: u8) -> Option<Word>
    ensures { result ≡ lone_word letter }
{
    match letter {
        b'I' => Some(Word::Internal),
        b'P' => Some(Word::Port),
        b'N' => Some(Word::Node),
        b'L' => Some(Word::Load),
        b'V' => Some(Word::Confidence),
        _ => None,
    }
}

/// The keyword of more letters that stands in each net, if it is one of these.
#[inline]
fn net_word(text: &[u8]) -> Option<Word>
    ensures { IfSome result (λ word. lookup keywords text.now ≡ Some word) }
{
    match text {
        b"*END" => Some(Word::End),
        b"*CAP" => Some(Word::Cap),
        b"*RES" => Some(Word::Res),
        b"*CONN" => Some(Word::Conn),
        b"*D_NET" => Some(Word::Net),
        _ => None,
    }
}

/// What stands in the table beside a text that may be a keyword. Where it stands in each net, no entry is looked at.
#[inline]
fn listed_word(begins: bool, text: &[u8]) -> Option<Word>
    ensures { result ≡ (if begins then lookup keywords text.now else None) }
{
    if !begins {
        return None;
    }
    match net_word(text) {
        Some(word) => Some(word),
        None => look_up(&KEYWORDS, text),
    }
}

/// What a token can be told to be by its first bytes: a keyword of one letter, or one of those in the table. The `*C` and `*D`
/// that extractors write at each connection take no look there.
#[inline]
fn sifted_word(text: &[u8]) -> Option<Word>
    ensures { result ≡ sifted_word text.now }
{
    match text {
        [] => None,
        [_] => None,
        [first, letter] => {
            if *first == b'*' {
                lone_word(*letter)
            } else {
                None
            }
        }
        [first, second, _, ..] => {
            let begins = *first == b'*' && second.is_ascii_uppercase();
            listed_word(begins, text)
        }
    }
}

/// The keyword that a token is, if any. Keywords are in capitals.
#[inline(always)]
pub fn word_of(text: &[u8]) -> Option<Word>
    ensures { result ≡ word_of text.now }
{
    sifted_word(text)
}
