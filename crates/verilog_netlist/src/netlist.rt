//! Reads a netlist whose names and ranges have no fault, or tells its first fault.
ghost use Rattle.std.specs.Prelude.{◌≡◌, ◌^◌, ◌<◌, ◌≤◌, List, length, IfOk, IfErr, Some};
ghost use Rattle.token_texts.specs.Spans.{text_at};
ghost use Rattle.verilog_netlist.specs.Namespaces.{name_of};
ghost use Rattle.verilog_netlist.specs.Netlist.{SaysSound, IsRefused, HasItsWord, Gives, IsNamed};
ghost use Rattle.verilog_netlist.specs.declared.entries.Entry.{Entry};

use crate::entries::Entry;
use crate::faults::{NameFault, first_fault};
use crate::reading::read_entries;
use edge_io::Text;
use std::alloc::Global;
use token_texts::Span;

/// Why a file is refused as a netlist. Tokens count from 1; comments, attributes, directives and blanks are none.
#[derive(Drop)]
pub enum VerilogEnd {
    /// No text of the grammar begins with the tokens up to this one, or, one past the last token, the file ends too early.
    Syntax { token: u64 },

    /// The same, where the token is a reserved word of Verilog that begins what is not structural, as `assign`.
    NotStructural { word: Text, token: u64 },

    /// A name stands twice where names must differ.
    Repeated { name: Text },

    /// A name stands in a header without a direction, or has a direction and does not stand in the header.
    PortDirection { name: Text },

    /// The range of a name, a select on it, a constant or the connection of a port is bad.
    BadRange { name: Text },

    /// There was no memory for what the file says.
    OutOfMemory,
}

/// The refusal of a name.
fn named(alloc: Global, bytes: &[u8], fault: NameFault, at: Span) -> VerilogEnd
    ensures { IsNamed fault (text_at bytes.now at) result }
{
    match Text::from_bytes(alloc, at.of(bytes)) {
        Ok(name) => match fault {
            NameFault::Repeated => VerilogEnd::Repeated { name },
            NameFault::PortDirection => VerilogEnd::PortDirection { name },
            NameFault::BadRange => VerilogEnd::BadRange { name },
        },
        Err(_) => VerilogEnd::OutOfMemory,
    }
}

/// Reads the bytes of a netlist and looks at its names and ranges.
pub(crate) fn read_netlist(alloc: Global, bytes: &[u8]) -> Result<Vec<Entry>, VerilogEnd>
    requires { length bytes.now < 2 ^ 30 }
    // What is answered is what the bytes say, and no name and no range of it is at fault.
    ensures ok { IfOk result (λ entries. SaysSound bytes.now entries.items) }
    // There are no more entries than bytes.
    ensures few { IfOk result (λ entries. length entries.items ≤ length bytes.now) }
    // A refusal's token is the one with which the bytes leave the grammar; its name is that of the first fault of what they say.
    ensures refused { IfErr result (IsRefused bytes.now) }
    // It is `NotStructural`, with the word, exactly where that token is a reserved word that the grammar has nowhere.
    ensures word { IfErr result (HasItsWord bytes.now) }
    // What the bytes say without a fault is answered, unless memory ran out.
    ensures only { (entries : List Entry) → SaysSound bytes.now entries → Gives (λ answer. answer.items) entries result }
{
    let entries = match read_entries(alloc, bytes) {
        Ok(entries) => entries,
        Err(end) => return Err(end),
    };
    let found = match first_fault(alloc, bytes, entries.as_slice()) {
        Ok(found) => found,
        Err(_) => return Err(VerilogEnd::OutOfMemory),
    };
    match found {
        None => Ok(entries),
        Some(first) => {
            let at = entries[first.place].name();
            Err(named(alloc, bytes, first.fault, at))
        }
    }
}
