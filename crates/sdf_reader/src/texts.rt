//! What the texts of a file say.
ghost use Rattle.std.specs.Prelude.{◌≡◌, false, IfOk};
ghost use Rattle.sdf_reader.specs.Tokens.{said_behind, meaning};

use edge_io::{OutOfMemory, Text};
use memchr::memchr;
use std::alloc::Global;
use token_texts::{Escape, takes};

/// What bytes say in which a backslash makes the next byte stand for itself.
fn unescaped(alloc: Global, raw: &[u8]) -> Result<Text, OutOfMemory>
    ensures { IfOk result (λ text. text ≡ said_behind false raw.now) }
{
    let mut text = Text::new(alloc);
    let mut is_taken = false;
    for byte in raw {
        is_taken = takes(Escape::NextByte, *byte, is_taken);
        if !is_taken {
            text.push_all(&[*byte])?;
        }
    }
    Ok(text)
}

/// What bytes say in which a backslash, if there is one, makes the next byte stand for itself.
fn said(alloc: Global, raw: &[u8]) -> Result<Text, OutOfMemory>
    ensures { IfOk result (λ text. text ≡ said_behind false raw.now) }
{
    match memchr(b'\\', raw) {
        None => Text::from_bytes(alloc, raw),
        Some(_) => unescaped(alloc, raw),
    }
}

/// What a text says, which is given with its quotes.
pub(crate) fn meaning(alloc: Global, quoted: &[u8]) -> Result<Text, OutOfMemory>
    ensures { IfOk result (λ text. text ≡ meaning quoted.now) }
{
    match quoted {
        [_, inner @ .., _] => said(alloc, inner),
        _ => Ok(Text::new(alloc)),
    }
}
