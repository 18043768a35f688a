//! Tells what `used_cells` answers.
ghost use Rattle.std.specs.Prelude.{◌^◌, ◌<◌, length};

use edge_io::Text;
use hierarchy::{Count, UseEnd, used_cells};
use std::alloc::Global;
use std::test::Fail;
use verilog_netlist::{Modules, parse};

fn count_word(count: Count) -> &'static [u8] {
    match count {
        Count::Depth => b"depth",
        Count::Instances => b"instances",
        Count::Names => b"names",
        Count::Pins => b"pins",
    }
}

fn tell_use(alloc: Global, text: &mut Text, modules: &Modules<'_>, top: &Text) -> Result<(), Fail> {
    match used_cells(alloc, modules, top) {
        Ok(cells) => {
            for cell in cells.as_slice() {
                text.push_all(cell.bytes())?;
                text.push_all(b" ")?;
            }
        }
        Err(UseEnd::NoTop) => text.push_all(b"no top")?,
        Err(UseEnd::Recursive(name)) => {
            text.push_all(b"recursive ")?;
            text.push_all(name.bytes())?;
        }
        Err(UseEnd::TooMany(count)) => text.push_all(count_word(count))?,
        Err(UseEnd::OutOfMemory) => text.push_all(b"out of memory")?,
    }
    Ok(())
}

/// The cells that the design of this top in this file uses, each with a space behind it, or why there are none.
pub fn told(alloc: Global, file: &[u8], top: &[u8]) -> Result<Text, Fail>
    requires { length file.now < 2 ^ 30 }
{
    let mut text = Text::new(alloc);
    let top = Text::from_bytes(alloc, top)?;
    match parse(alloc, file) {
        Ok(modules) => tell_use(alloc, &mut text, &modules, &top)?,
        Err(_) => text.push_all(b"no netlist")?,
    }
    Ok(text)
}
