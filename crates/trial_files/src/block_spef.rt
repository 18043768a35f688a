//! The SPEF file of a block.
ghost use Rattle.std.specs.Prelude.{◌≡◌, ◌++◌, ◌+◌, ◌≤◌, IfOk, OnOk};
ghost use Rattle.std.specs.List.{flat_map, range_with_len};
ghost use Rattle.trial_files.specs.BlockSpef as texts;

use crate::block_netlist::push_net;
use crate::numbers::push_numbered;
use crate::spef_head::begin_spef;
use edge_io::{OutOfMemory, Text};
use std::alloc::Global;

// Puts the driver of a net at the end.
fn push_driver(text: &mut Text, k: u32) -> Result<(), OutOfMemory>
    ensures { OnOk result (text.new ≡ text.old ++ texts.block_driver k) }
{
    if k == 0 {
        text.push_all(b"a")
    } else {
        push_numbered(text, b"u", k, b":Z")
    }
}

// Puts the connection of the driver at the end.
fn push_driver_line(text: &mut Text, k: u32) -> Result<(), OutOfMemory>
    ensures { OnOk result (text.new ≡ text.old ++ texts.driver_line k) }
{
    if k == 0 {
        text.push_all(b"*P a I\n")
    } else {
        push_numbered(text, b"*I u", k, b":Z O\n")
    }
}

// Puts the sink of a net at the end.
fn push_sink(text: &mut Text, size: u32, k: u32) -> Result<(), OutOfMemory>
    requires { k ≤ 600000 }
    ensures { OnOk result (text.new ≡ text.old ++ texts.block_sink size k) }
{
    if k == size {
        text.push_all(b"z")
    } else {
        push_numbered(text, b"u", k + 1, b":A")
    }
}

// Puts the connection of the sink at the end.
fn push_sink_line(text: &mut Text, size: u32, k: u32) -> Result<(), OutOfMemory>
    requires { k ≤ 600000 }
    ensures { OnOk result (text.new ≡ text.old ++ texts.sink_line size k) }
{
    if k == size {
        text.push_all(b"*P z O\n")
    } else {
        push_numbered(text, b"*I u", k + 1, b":A I\n")
    }
}

// Puts the name and the connections of a net at the end.
fn push_head(text: &mut Text, size: u32, k: u32) -> Result<(), OutOfMemory>
    requires { k ≤ 600000 }
    ensures { OnOk result (text.new ≡ text.old ++ texts.net_head size k) }
{
    text.push_all(b"*D_NET ")?;
    push_net(text, size, k)?;
    text.push_all(b" 2\n*CONN\n")?;
    push_driver_line(text, k)?;
    push_sink_line(text, size, k)?;
    Ok(())
}

// Puts the capacitance and the resistor of a net at the end.
fn push_parts(text: &mut Text, size: u32, k: u32) -> Result<(), OutOfMemory>
    requires { k ≤ 600000 }
    ensures { OnOk result (text.new ≡ text.old ++ texts.net_parts size k) }
{
    text.push_all(b"*CAP\n1 ")?;
    push_sink(text, size, k)?;
    text.push_all(b" 2\n*RES\n1 ")?;
    push_driver(text, k)?;
    text.push_all(b" ")?;
    push_sink(text, size, k)?;
    text.push_all(b" 100\n*END\n")?;
    Ok(())
}

// Puts a net at the end.
fn push_section(text: &mut Text, size: u32, k: u32) -> Result<(), OutOfMemory>
    requires { k ≤ 600000 }
    ensures { OnOk result (text.new ≡ text.old ++ texts.block_section size k) }
{
    push_head(text, size, k)?;
    push_parts(text, size, k)?;
    Ok(())
}

// Puts the nets at the end.
fn push_sections(text: &mut Text, size: u32) -> Result<(), OutOfMemory>
    requires { size ≤ 600000 }
    ensures { OnOk result (text.new ≡ text.old ++ flat_map (texts.block_section size) (range_with_len 0 (size + 1))) }
{
    for k in 0..size + 1 {
        push_section(text, size, k)?;
    }
    Ok(())
}

/// The SPEF file.
#[tactic(auto, unfolding(crate::specs::BlockSpef::block_spef))]
pub(crate) fn block_spef(alloc: Global, size: u32) -> Result<Text, OutOfMemory>
    requires { size ≤ 600000 }
    ensures { IfOk result (λ text. text ≡ texts.block_spef size) }
{
    let mut text = begin_spef(alloc)?;
    push_sections(&mut text, size)?;
    Ok(text)
}
