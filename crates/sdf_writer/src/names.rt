//! The names of rows, by their numbers.
ghost use Rattle.std.specs.Prelude.{◌≡◌, ◌<◌, length, IfOk, IfSome};
ghost use Rattle.sdf_writer.specs.Names.{name_at, ExtendsNames, KeepsName};

use edge_io::OutOfMemory;
use text_table::FlatTexts;

// A name by its number.
#[inline]
pub(crate) fn name(names: &FlatTexts, number: u32) -> &[u8]
    requires { number < length names.now }
    ensures { result.now ≡ name_at names.now number }
{
    names.text(number as usize)
}

// Keeps a copy of a name, unless it is that of this number.
#[inline]
pub(crate) fn keep_again(
    names: &mut FlatTexts,
    before: Option<u32>,
    text: &[u8],
) -> Result<u32, OutOfMemory>
    requires { IfSome before (λ number. number < length names.old) }
    ensures kept { IfOk result (KeepsName names.new text.now) }
    ensures names { ExtendsNames names.old names.new }
{
    match before {
        Some(number) if name(names, number) == text => Ok(number),
        _ => keep_name(names, text),
    }
}

// Keeps a copy of a name.
pub(crate) fn keep_name(names: &mut FlatTexts, name: &[u8]) -> Result<u32, OutOfMemory>
    ensures kept { IfOk result (KeepsName names.new name.now) }
    ensures names { ExtendsNames names.old names.new }
{
    names.add(name)
}
