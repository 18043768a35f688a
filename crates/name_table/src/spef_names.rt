//! Names of SPEF (IEEE 1481-1999).
ghost use Rattle.std.specs.Prelude.{◌≡◌, ◌≢◌, true, ◌+◌, ◌-◌, ◌<◌, ◌++◌, ◌∷◌, Bool, ℕ, List, Option, Some, None, take, drop, length, get_or, IfOk, IsTrue, IfSome, IfNone, OnOk, OnErr};
ghost use Rattle.std.specs.List.{list_all};
ghost use Rattle.name_table.specs.Characters.{bare, characters};
ghost use Rattle.edge_io.specs.Bytes.{slash, backslash};
ghost use Rattle.name_table.specs.SdfNames.{canonical};
ghost use Rattle.name_table.specs.SpefNames.{sdf_of, meaning, text_of, spelling_of, cut_last, halves_at, whole_node, cut_node, node_name, joined};
ghost use Rattle.name_table.specs.Staying.{stays, stays_as, are_usual};

use crate::sdf_names::{is_plain, push_spelled};
use edge_io::lists::push;
use edge_io::{OutOfMemory, Text};
use memchr::memrchr;
use std::alloc::Global;

/// The marks of a SPEF file: what divides the parts of a path, what stands between a node's name and its
/// pin, and what stands round the number of a bit. Where marks are one byte the divider counts, then the
/// left one.
#[derive(Clone, Copy)]
pub struct SpefMarks {
    pub divider: u8,
    pub delimiter: u8,
    pub left: u8,
    pub right: u8,
}

/// A node's name: what stands before its last delimiter and after it, or the whole of it as a head alone;
/// and its spelling in SDF, in which head and tail are joined by `/`.
#[derive(Drop)]
pub struct NodeName {
    pub head: Text,
    pub tail: Option<Text>,
    pub sdf: Text,
}

/// Reads a name. A backslash makes the next byte literal; an unescaped divider is `/`, and unescaped bus
/// delimiters are `[` and `]`. Where `cut` asks for it the name is cut at its last unescaped delimiter, if
/// it has one. A backslash at the very end stands for nothing.
pub fn read_spef_node(
    alloc: Global,
    word: &[u8],
    cut: bool,
    marks: &SpefMarks,
) -> Result<NodeName, OutOfMemory>
    ensures named { IfOk result (λ node. node ≡ node_name marks.now cut word.now) }
    ensures joined { IfOk result (λ node. joined marks.now node.head node.tail ≡ text_of marks.now (characters word.now)) }
    ensures settled { IfOk result (λ node. canonical slash node.sdf ≡ node.sdf) }
{
    match last_delimiter(word, cut, marks.delimiter) {
        None => whole_node(alloc, word, marks),
        Some(place) => cut_node(alloc, &word[..place], &word[place + 1..], marks),
    }
}

// A name that is not cut.
fn whole_node(alloc: Global, word: &[u8], marks: &SpefMarks) -> Result<NodeName, OutOfMemory>
    ensures { IfOk result (λ node. node ≡ whole_node marks.now (characters word.now)) }
{
    if all_stay(marks, word) {
        stayed_whole(alloc, word)
    } else {
        spelled_whole(alloc, word, marks)
    }
}

// The same, byte by byte.
fn spelled_whole(alloc: Global, word: &[u8], marks: &SpefMarks) -> Result<NodeName, OutOfMemory>
    ensures { IfOk result (λ node. node ≡ whole_node marks.now (characters word.now)) }
{
    let head = text_of(alloc, word, marks)?;
    let mut sdf = Vec::with_capacity(alloc, word.len())?;
    push_spelling(&mut sdf, word, marks)?;
    let sdf = Text::from_vec(sdf);
    Ok(NodeName {
        head,
        tail: None,
        sdf,
    })
}

/// Reads a name that is cut already: what stands before the delimiter, and what stands after it.
pub fn cut_node(
    alloc: Global,
    front: &[u8],
    back: &[u8],
    marks: &SpefMarks,
) -> Result<NodeName, OutOfMemory>
    ensures { IfOk result (λ node. node ≡ cut_node marks.now (characters front.now) (characters back.now)) }
{
    if all_stay(marks, front) && all_stay(marks, back) {
        stayed_halves(alloc, front, back)
    } else {
        spelled_halves(alloc, front, back, marks)
    }
}

// The same, byte by byte.
fn spelled_halves(
    alloc: Global,
    front: &[u8],
    back: &[u8],
    marks: &SpefMarks,
) -> Result<NodeName, OutOfMemory>
    ensures { IfOk result (λ node. node ≡ cut_node marks.now (characters front.now) (characters back.now)) }
{
    let head = text_of(alloc, front, marks)?;
    let tail = text_of(alloc, back, marks)?;
    let mut sdf = Vec::with_capacity(alloc, front.len())?;
    push_spelling(&mut sdf, front, marks)?;
    push(&mut sdf, b'/')?;
    push_spelling(&mut sdf, back, marks)?;
    let sdf = Text::from_vec(sdf);
    Ok(NodeName {
        head,
        tail: Some(tail),
        sdf,
    })
}

// A name that stands as it is, in the text and in SDF. Most names do, and are copied faster whole than byte by byte.
fn stayed_whole(alloc: Global, word: &[u8]) -> Result<NodeName, OutOfMemory>
    ensures { IfOk result (λ node. node ≡ record { head = word.now; tail = None; sdf = word.now }) }
{
    let head = Text::from_bytes(alloc, word)?;
    let sdf = Text::from_bytes(alloc, word)?;
    Ok(NodeName {
        head,
        tail: None,
        sdf,
    })
}

// The same of a name that is cut into these two.
fn stayed_halves(alloc: Global, front: &[u8], back: &[u8]) -> Result<NodeName, OutOfMemory>
    ensures { IfOk result (λ node. node ≡ record { head = front.now; tail = Some back.now; sdf = front.now ++ slash ∷ back.now }) }
{
    let head = Text::from_bytes(alloc, front)?;
    let tail = Text::from_bytes(alloc, back)?;
    let sdf = sdf_of_halves(alloc, front, back)?;
    Ok(NodeName {
        head,
        tail: Some(tail),
        sdf,
    })
}

// Head and tail as SDF spells them, where each byte of them stands as it is.
pub(crate) fn sdf_of_halves(alloc: Global, front: &[u8], back: &[u8]) -> Result<Text, OutOfMemory>
    ensures { IfOk result (λ sdf. sdf ≡ front.now ++ slash ∷ back.now) }
{
    let room = front.len().saturating_add(back.len()).saturating_add(1);
    let mut sdf = Vec::with_capacity(alloc, room)?;
    sdf.extend_from_slice(front)?;
    push(&mut sdf, b'/')?;
    sdf.extend_from_slice(back)?;
    Ok(Text::from_vec(sdf))
}

/// Whether each byte of a word stands as it is.
pub(crate) fn all_stay(marks: &SpefMarks, word: &[u8]) -> bool
    ensures { result ≡ list_all (stays marks.now) word.now }
{
    if are_usual(marks) {
        all_stay_usually(marks, word)
    } else {
        word.iter().all(|byte| stays(marks, *byte))
    }
}

// Whether no mark is a plain byte: it is so in all files but those that are made to try a reader.
fn are_usual(marks: &SpefMarks) -> bool
    ensures { result ≡ are_usual marks.now }
{
    !is_plain(marks.divider) && !is_plain(marks.left) && !is_plain(marks.right)
}

// The same as `all_stay` among usual marks, which are not asked for at each byte.
fn all_stay_usually(marks: &SpefMarks, word: &[u8]) -> bool
    requires { are_usual marks.now ≡ true }
    ensures { result ≡ list_all (stays marks.now) word.now }
{
    word.iter().all(|byte| stays_usually(marks, *byte))
}

// Whether a byte stands as it is among usual marks. A plain one does, which most are.
#[tactic(auto, using(crate::proofs::Staying::plain_stays))]
fn stays_usually(marks: &SpefMarks, byte: u8) -> bool
    requires { are_usual marks.now ≡ true }
    ensures { result ≡ stays marks.now byte }
{
    is_plain(byte) || stays(marks, byte)
}

// Whether a byte stands as it is, in the text and in SDF.
fn stays(marks: &SpefMarks, byte: u8) -> bool
    ensures { result ≡ stays marks.now byte }
{
    byte != b'\\' && stays_as(meaning(marks, byte), byte)
}

// The same of a byte that is no backslash, and may be a mark.
fn stays_as(mark: Option<u8>, byte: u8) -> bool
    ensures { result ≡ stays_as mark byte }
{
    match mark {
        None => is_plain(byte),
        Some(mark) => mark == byte,
    }
}

/// The place of the last unescaped delimiter, where the name is to be cut and has one.
pub(crate) fn last_delimiter(word: &[u8], cut: bool, delimiter: u8) -> Option<usize>
    ensures none { IfNone result (halves_at delimiter cut (characters word.now) ≡ None) }
    ensures within { IfSome result (λ place. place < length word.now) }
    ensures some { IfSome result (λ place. halves_at delimiter cut (characters word.now)
        ≡ Some (record { front = characters (take place word.now); back = characters (drop (place + 1) word.now) })) }
{
    if cut {
        last_unescaped(word, delimiter)
    } else {
        None
    }
}

// The place of the last unescaped delimiter, if there is one. The last delimiter is it where no backslash stands right
// before it, as in nearly all words, whatever stands further in front.
fn last_unescaped(word: &[u8], delimiter: u8) -> Option<usize>
    ensures none { IfNone result (cut_last delimiter (characters word.now) ≡ None) }
    ensures within { IfSome result (λ place. place < length word.now) }
    ensures some { IfSome result (λ place. cut_last delimiter (characters word.now)
        ≡ Some (record { front = characters (take place word.now); back = characters (drop (place + 1) word.now) })) }
{
    match memrchr(delimiter, word) {
        None => None,
        Some(place) if stands_alone(word, place, delimiter) => Some(place),
        Some(_) => last_by_reading(word, delimiter),
    }
}

// Whether a delimiter has no backslash right before it, and is none.
fn stands_alone(word: &[u8], place: usize, delimiter: u8) -> bool
    requires { place < length word.now }
    ensures delimiter { IsTrue result → delimiter ≢ backslash }
    ensures before { IsTrue result → 0 < place → get_or word.now (place - 1) 0 ≢ backslash }
{
    delimiter != b'\\' && (place == 0 || word[place - 1] != b'\\')
}

// The same, byte by byte.
fn last_by_reading(word: &[u8], delimiter: u8) -> Option<usize>
    ensures none { IfNone result (cut_last delimiter (characters word.now) ≡ None) }
    ensures within { IfSome result (λ place. place < length word.now) }
    ensures some { IfSome result (λ place. cut_last delimiter (characters word.now)
        ≡ Some (record { front = characters (take place word.now); back = characters (drop (place + 1) word.now) })) }
{
    let mut last = None;
    let mut is_taken = false;
    for (place, &byte) in word.iter().enumerate() {
        if is_taken {
            is_taken = false;
        } else if byte == b'\\' {
            is_taken = true;
        } else if byte == delimiter {
            last = Some(place);
        }
    }
    last
}

// The text that a name stands for.
fn text_of(alloc: Global, word: &[u8], marks: &SpefMarks) -> Result<Text, OutOfMemory>
    ensures { IfOk result (λ text. text ≡ text_of marks.now (characters word.now)) }
{
    let mut text = Vec::with_capacity(alloc, word.len())?;
    let mut is_taken = false;
    for &byte in word {
        if is_taken {
            push(&mut text, byte)?;
            is_taken = false;
        } else if byte == b'\\' {
            is_taken = true;
        } else {
            push(&mut text, meaning(marks, byte).unwrap_or(byte))?;
        }
    }
    Ok(Text::from_vec(text))
}

// Puts the spelling of a name in SDF at the end.
fn push_spelling(sdf: &mut Vec<u8>, word: &[u8], marks: &SpefMarks) -> Result<(), OutOfMemory>
    ensures { OnOk result (sdf.new.items ≡ sdf.old.items ++ spelling_of marks.now (characters word.now)) }
{
    let mut is_taken = false;
    for &byte in word {
        if is_taken {
            push_spelled(sdf, byte)?;
            is_taken = false;
        } else if byte == b'\\' {
            is_taken = true;
        } else {
            push_mark_or_spelled(sdf, byte, marks)?;
        }
    }
    Ok(())
}

// Puts the spelling of a byte without a backslash at the end.
fn push_mark_or_spelled(sdf: &mut Vec<u8>, byte: u8, marks: &SpefMarks) -> Result<(), OutOfMemory>
    ensures { OnOk result (sdf.new.items ≡ sdf.old.items ++ sdf_of marks.now (bare byte)) }
{
    match meaning(marks, byte) {
        Some(mark) => push(sdf, mark),
        None => push_spelled(sdf, byte),
    }
}

// What an unescaped mark stands for.
fn meaning(marks: &SpefMarks, byte: u8) -> Option<u8>
    ensures { result ≡ meaning marks.now byte }
{
    if byte == marks.divider {
        Some(b'/')
    } else if byte == marks.left {
        Some(b'[')
    } else if byte == marks.right {
        Some(b']')
    } else {
        None
    }
}
