//! The names of the ends of wires.
ghost use Rattle.std.specs.Prelude.{◌≡◌, true, ◌<◌, ◌∷◌, ◌++◌, length, IfOk, IfSome};
ghost use Rattle.edge_io.specs.Bytes.{slash};
ghost use Rattle.sdf_writer.specs.Names.{ExtendsNames, KeepsName};
ghost use Rattle.sdf_writer.specs.WireEnds.{end_name};

use crate::names::{keep_name, name};
use edge_io::{OutOfMemory, are_equal};
use text_table::FlatTexts;

/// The name of an end of a wire in the spelling of SDF: a whole name, or that of a pin by the path of its instance and its own name.
#[derive(Clone, Copy)]
pub enum WireEnd<'n> {
    Name(&'n [u8]),
    Pin { instance: &'n [u8], pin: &'n [u8] },
}

// Whether a text is the name of this pin.
fn is_pin_name(text: &[u8], instance: &[u8], pin: &[u8]) -> bool
    ensures { result ≡ true → text.now ≡ instance.now ++ slash ∷ pin.now }
{
    if text.len() <= instance.len() {
        return false;
    }
    let (front, back) = text.split_at(instance.len());
    match back {
        [b'/', rest @ ..] => are_equal(rest, pin) && are_equal(front, instance),
        _ => false,
    }
}

// Whether a text is the name of this end.
#[inline]
fn is_end_name(text: &[u8], end: WireEnd<'_>) -> bool
    ensures { result ≡ true → text.now ≡ end_name end.entry }
{
    match end {
        WireEnd::Name(name) => are_equal(text, name),
        WireEnd::Pin { instance, pin } => is_pin_name(text, instance, pin),
    }
}

// Keeps the name of an end.
#[inline(always)]
pub(crate) fn keep_end(names: &mut FlatTexts, end: WireEnd<'_>) -> Result<u32, OutOfMemory>
    ensures kept { IfOk result (KeepsName names.new (end_name end.entry)) }
    ensures names { ExtendsNames names.old names.new }
{
    match end {
        WireEnd::Name(name) => keep_name(names, name),
        WireEnd::Pin { instance, pin } => names.add_parted(instance, b'/', pin),
    }
}

// Keeps the name of an end, unless it is that of this number.
#[inline]
pub(crate) fn keep_end_again(
    names: &mut FlatTexts,
    before: Option<u32>,
    end: WireEnd<'_>,
) -> Result<u32, OutOfMemory>
    requires { IfSome before (λ number. number < length names.old) }
    ensures kept { IfOk result (KeepsName names.new (end_name end.entry)) }
    ensures names { ExtendsNames names.old names.new }
{
    match before {
        Some(number) if is_end_name(name(names, number), end) => Ok(number),
        _ => keep_end(names, end),
    }
}
