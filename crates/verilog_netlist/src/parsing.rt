//! Reads a netlist as modules.
ghost use Rattle.std.specs.Prelude.{◌≡◌, ◌^◌, ◌<◌, List, length, IfOk, IfErr};
ghost use Rattle.verilog_netlist.specs.Netlist.{SaysSound, IsRefused, HasItsWord};
ghost use Rattle.verilog_netlist.specs.Parsed.{AreModulesOf, GivesModules, IsMadeOf};
ghost use Rattle.verilog_netlist.specs.declared.entries.Entry.{Entry};

use crate::entries::Entry;
use crate::modules::{Modules, number_modules};
use crate::net_names::collect_net_names;
use crate::netlist::{VerilogEnd, read_netlist};
use crate::places::collect_places;
use crate::tables::Tables;
use edge_io::OutOfMemory;
use std::alloc::Global;

/// The tables of the modules that these entries are.
fn tables_of<'a>(
    alloc: Global,
    bytes: &'a [u8],
    entries: Vec<Entry>,
) -> Result<Tables<'a>, OutOfMemory>
    requires { length entries.items < 2 ^ 30 }
    ensures { IfOk result (IsMadeOf bytes.now entries.items) }
{
    let places = collect_places(alloc, entries.as_slice())?;
    let names = collect_net_names(alloc, bytes, entries.as_slice(), &places)?;
    Ok(Tables {
        bytes,
        entries,
        places,
        names,
    })
}

/// Reads the bytes of a netlist (IEEE 1364-2005, structural): its modules, with their names, instances and connections.
///
/// `Syntax` and `NotStructural` come exactly where the bytes are no text of the grammar; their token is the first with which no
/// text of the grammar begins. The other faults come after a whole reading, at the first token that has one; at one token in the
/// order repeated, direction, range. It takes time and memory in proportion to the bytes.
pub fn parse<'a>(alloc: Global, bytes: &'a [u8]) -> Result<Modules<'a>, VerilogEnd>
    requires { length bytes.now < 2 ^ 30 }
    // What is answered are the modules of what the bytes say, and no name and no range of that is at fault.
    ensures ok { IfOk result (AreModulesOf bytes.now) }
    // A refusal's token is the one with which the bytes leave the grammar; its name is that of the first fault of what they say.
    ensures refused { IfErr result (IsRefused bytes.now) }
    // It is `NotStructural`, with the word, exactly where that token is a reserved word that the grammar has nowhere.
    ensures word { IfErr result (HasItsWord bytes.now) }
    // The modules of what the bytes say without a fault are answered, unless memory ran out.
    ensures only { (entries : List Entry) → SaysSound bytes.now entries → GivesModules bytes.now entries result }
{
    let entries = match read_netlist(alloc, bytes) {
        Ok(entries) => entries,
        Err(end) => return Err(end),
    };
    let tables = match tables_of(alloc, bytes, entries) {
        Ok(tables) => tables,
        Err(_) => return Err(VerilogEnd::OutOfMemory),
    };
    match number_modules(alloc, &tables) {
        Ok(numbers) => Ok(Modules::of(tables, numbers)),
        Err(_) => Err(VerilogEnd::OutOfMemory),
    }
}
