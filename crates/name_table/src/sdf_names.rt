//! Names of SDF (IEEE 1497-2001, identifiers and hierarchical paths).
ghost use Rattle.std.specs.Prelude.{◌≡◌, ◌≢◌, [], ◌∷◌, ◌++◌, IfOk, OnOk};
ghost use Rattle.name_table.specs.Characters.{bare};
ghost use Rattle.name_table.specs.SdfNames.{is_plain, spelled, part, respelled, canonical};
ghost use Rattle.edge_io.specs.Bytes.{slash};
ghost use Rattle.name_table.specs.WellSpelled.{IsPart};

use edge_io::lists::push;
use edge_io::{OutOfMemory, Text};
use std::alloc::Global;

// Each letter, each digit and `_` stands at its own place, and a comma at every other place.
static PLAIN_BYTES: [u8; 256] = *b"\
    ,,,,,,,,,,,,,,,,,,,,,,,,,,,,,,,,\
    ,,,,,,,,,,,,,,,,0123456789,,,,,,\
    ,ABCDEFGHIJKLMNOPQRSTUVWXYZ,,,,_\
    ,abcdefghijklmnopqrstuvwxyz,,,,,\
    ,,,,,,,,,,,,,,,,,,,,,,,,,,,,,,,,\
    ,,,,,,,,,,,,,,,,,,,,,,,,,,,,,,,,\
    ,,,,,,,,,,,,,,,,,,,,,,,,,,,,,,,,\
    ,,,,,,,,,,,,,,,,,,,,,,,,,,,,,,,,";

// A letter, a digit or `_`. A look-up takes one test, where the ranges take up to four.
pub(crate) fn is_plain(byte: u8) -> bool
    ensures { result ≡ is_plain byte }
{
    PLAIN_BYTES[byte as usize] != b','
}

// Puts the spelling of a byte at the end.
pub(crate) fn push_spelled(bytes: &mut Vec<u8>, byte: u8) -> Result<(), OutOfMemory>
    ensures ok { OnOk result (bytes.new.items ≡ bytes.old.items ++ spelled byte) }
{
    if !is_plain(byte) {
        push(bytes, b'\\')?;
    }
    push(bytes, byte)
}

/// The spelling of a name as one part of a path: letters, digits and `_` stand as they are, and every
/// other byte has a backslash before it.
pub fn escape_sdf(alloc: Global, name: &[u8]) -> Result<Text, OutOfMemory>
    ensures spelled { IfOk result (λ text. text ≡ part name.now) }
    ensures well_spelled { name.now ≢ [] → IfOk result (λ text. IsPart text) }
    ensures settled { IfOk result (λ text. canonical slash text ≡ text) }
{
    let mut spelling = Vec::with_capacity(alloc, name.len())?;
    for &byte in name {
        push_spelled(&mut spelling, byte)?;
    }
    Ok(Text::from_vec(spelling))
}

/// The canonical spelling of a name as it stands in a file with this divider. A divider becomes `/`;
/// letters, digits, `_`, `[` and `]` stay; a backslash before a letter, a digit or `_` is dropped; every
/// other byte, with a backslash before it or not, gets one. A backslash at the very end stands for nothing.
pub fn canonical_sdf(alloc: Global, word: &[u8], divider: u8) -> Result<Text, OutOfMemory>
    ensures spelled { IfOk result (λ text. text ≡ canonical divider word.now) }
    ensures settled { IfOk result (λ text. canonical slash text ≡ text) }
{
    let mut spelling = Vec::with_capacity(alloc, word.len())?;
    let mut is_taken = false;
    for &byte in word {
        if is_taken {
            push_spelled(&mut spelling, byte)?;
            is_taken = false;
        } else if byte == b'\\' {
            is_taken = true;
        } else {
            push_respelled(&mut spelling, byte, divider)?;
        }
    }
    Ok(Text::from_vec(spelling))
}

// Puts the spelling of a byte without a backslash at the end.
fn push_respelled(spelling: &mut Vec<u8>, byte: u8, divider: u8) -> Result<(), OutOfMemory>
    ensures ok { OnOk result (spelling.new.items ≡ spelling.old.items ++ respelled divider (bare byte)) }
{
    if byte == divider {
        push(spelling, b'/')
    } else if byte == b'[' || byte == b']' {
        push(spelling, byte)
    } else {
        push_spelled(spelling, byte)
    }
}
