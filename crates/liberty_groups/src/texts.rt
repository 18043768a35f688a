//! What tokens say.
ghost use Rattle.std.specs.Prelude.{◌≡◌, ◌+◌, ◌<◌, ◌≤◌, ◌^◌, length, IfOk};
ghost use Rattle.liberty_groups.specs.Tokens.{meaning, said_by};
ghost use Rattle.liberty_groups.specs.Dropping.{dropped};

use crate::scan::{Kind, continuation};
use edge_io::{OutOfMemory, Text};
use memchr::memchr;
use std::alloc::Global;
use token_texts::begins_with;

/// How many bytes of a text a backslash drops, itself with them, or 0, where the byte stands for itself.
fn dropped(byte: u8, rest: &[u8]) -> usize
    requires { length rest.now < 2 ^ 32 }
    ensures value { result ≡ dropped byte rest.now }
    ensures within { result ≤ length rest.now + 1 }
{
    if byte != b'\\' {
        return 0;
    }
    if begins_with(b'"', rest) {
        return 1;
    }
    let length = continuation(rest);
    if length > 0 { length + 1 } else { 0 }
}

/// What the bytes between the quotes of a text say that has a backslash.
fn unescaped(alloc: Global, raw: &[u8]) -> Result<Text, OutOfMemory>
    requires { length raw.now < 2 ^ 32 }
    ensures { IfOk result (λ text. text ≡ meaning raw.now) }
{
    let mut text = Text::new(alloc);
    let mut place = 0;
    while place < raw.len() {
        let byte = raw[place];
        let rest = raw.split_at(place + 1).1;
        let count = dropped(byte, rest);
        if count > 0 {
            place += count;
        } else {
            text.push_all(&[byte])?;
            place += 1;
        }
    }
    Ok(text)
}

/// What the bytes between the quotes of a text say.
fn meaning(alloc: Global, raw: &[u8]) -> Result<Text, OutOfMemory>
    requires { length raw.now < 2 ^ 32 }
    ensures { IfOk result (λ text. text ≡ meaning raw.now) }
{
    match memchr(b'\\', raw) {
        None => Text::from_bytes(alloc, raw),
        Some(_) => unescaped(alloc, raw),
    }
}

/// What a token of this kind and of these bytes says.
pub(crate) fn said(alloc: Global, kind: Kind, bytes: &[u8]) -> Result<Text, OutOfMemory>
    requires { length bytes.now < 2 ^ 32 }
    ensures { IfOk result (λ text. text ≡ said_by kind bytes.now) }
{
    match kind {
        Kind::Word => Text::from_bytes(alloc, bytes),
        Kind::Quoted => match bytes {
            [_, inner @ .., _] => meaning(alloc, inner),
            _ => Ok(Text::new(alloc)),
        },
        _ => Ok(Text::new(alloc)),
    }
}
