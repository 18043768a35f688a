//! The netlist of a block.
ghost use Rattle.std.specs.Prelude.{◌≡◌, ◌++◌, ◌≤◌, reverse, IfOk, OnOk};
ghost use Rattle.std.specs.List.{flat_map, range_with_len};
ghost use Rattle.trial_files.specs.BlockNetlist as texts;

use crate::numbers::push_numbered;
use edge_io::{OutOfMemory, Text};
use std::alloc::Global;

/// Puts the name of a net at the end.
pub(crate) fn push_net(text: &mut Text, size: u32, k: u32) -> Result<(), OutOfMemory>
    ensures { OnOk result (text.new ≡ text.old ++ texts.block_net size k) }
{
    if k == 0 {
        text.push_all(b"a")
    } else if k == size {
        text.push_all(b"z")
    } else {
        push_numbered(text, b"n", k, b"")
    }
}

// Puts an inverter at the end.
fn push_gate(text: &mut Text, size: u32, k: u32) -> Result<(), OutOfMemory>
    requires { 1 ≤ k }
    ensures { OnOk result (text.new ≡ text.old ++ texts.block_gate size k) }
{
    push_numbered(text, b"INV u", k, b" (.A(")?;
    push_net(text, size, k - 1)?;
    text.push_all(b"), .Z(")?;
    push_net(text, size, k)?;
    text.push_all(b"));\n")?;
    Ok(())
}

// Puts the inverters at the end, from the last to the first.
fn push_gates(text: &mut Text, size: u32) -> Result<(), OutOfMemory>
    ensures { OnOk result (text.new ≡ text.old ++ flat_map (texts.block_gate size) (reverse (range_with_len 1 size))) }
{
    for written in 0..size {
        push_gate(text, size, size - written)?;
    }
    Ok(())
}

/// The netlist.
#[tactic(auto, unfolding(crate::specs::BlockNetlist::block_netlist))]
pub(crate) fn block_netlist(alloc: Global, size: u32) -> Result<Text, OutOfMemory>
    ensures { IfOk result (λ text. text ≡ texts.block_netlist size) }
{
    let mut text = Text::from_bytes(alloc, b"module top (a, z);\ninput a;\noutput z;\n")?;
    push_gates(&mut text, size)?;
    text.push_all(b"endmodule\n")?;
    Ok(text)
}
