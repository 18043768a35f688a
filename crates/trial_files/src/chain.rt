//! The netlist and the SPEF file of a chain.
ghost use Rattle.std.specs.Prelude.{◌≡◌, ◌++◌, ◌≤◌, IfOk, OnOk};
ghost use Rattle.trial_files.specs.ChainNetlist as netlists;
ghost use Rattle.trial_files.specs.ChainSpef as spefs;

use crate::numbers::push_numbered;
use crate::spef_head::begin_spef;
use edge_io::{OutOfMemory, Text};
use std::alloc::Global;

/// The netlist.
#[tactic(auto, unfolding(crate::specs::ChainNetlist::chain_netlist))]
pub(crate) fn chain_netlist(alloc: Global) -> Result<Text, OutOfMemory>
    ensures { IfOk result (λ text. text ≡ netlists.chain_netlist) }
{
    Text::from_bytes(
        alloc,
        b"module top (a, z);
input a;
output z;
INV u1 (.A(a), .Z(n));
INV u2 (.A(n), .Z(z));
endmodule
",
    )
}

// Puts a node of the net in the middle at the end.
fn push_node(text: &mut Text, size: u32, k: u32) -> Result<(), OutOfMemory>
    ensures { OnOk result (text.new ≡ text.old ++ spefs.chain_node size k) }
{
    if k == 0 {
        text.push_all(b"u1:Z")
    } else if k == size {
        text.push_all(b"u2:A")
    } else {
        push_numbered(text, b"n:", k, b"")
    }
}

// Puts the capacitance at a node at the end.
fn push_cap(text: &mut Text, size: u32, k: u32) -> Result<(), OutOfMemory>
    ensures { OnOk result (text.new ≡ text.old ++ spefs.chain_cap size k) }
{
    push_numbered(text, b"", k, b" ")?;
    push_node(text, size, k)?;
    text.push_all(b" 1\n")?;
    Ok(())
}

// Puts the capacitances at the end.
fn push_caps(text: &mut Text, size: u32) -> Result<(), OutOfMemory>
    requires { size ≤ 600000 }
    ensures { OnOk result (text.new ≡ text.old ++ spefs.chain_caps size) }
{
    text.push_all(b"*CAP\n")?;
    for k in 0..size {
        push_cap(text, size, k + 1)?;
    }
    Ok(())
}

// Puts the resistor before a node at the end.
fn push_resistor(text: &mut Text, size: u32, k: u32) -> Result<(), OutOfMemory>
    requires { 1 ≤ k }
    ensures { OnOk result (text.new ≡ text.old ++ spefs.chain_resistor size k) }
{
    push_numbered(text, b"", k, b" ")?;
    push_node(text, size, k - 1)?;
    text.push_all(b" ")?;
    push_node(text, size, k)?;
    text.push_all(b" 1\n")?;
    Ok(())
}

// Puts the resistors at the end.
fn push_resistors(text: &mut Text, size: u32) -> Result<(), OutOfMemory>
    requires { size ≤ 600000 }
    ensures { OnOk result (text.new ≡ text.old ++ spefs.chain_resistors size) }
{
    text.push_all(b"*RES\n")?;
    for before in 0..size {
        push_resistor(text, size, before + 1)?;
    }
    Ok(())
}

// Puts the net in the middle at the end.
fn push_middle(text: &mut Text, size: u32) -> Result<(), OutOfMemory>
    requires { size ≤ 600000 }
    ensures { OnOk result (text.new ≡ text.old ++ spefs.chain_middle size) }
{
    push_numbered(text, b"*D_NET n ", size, b"\n*CONN\n*I u1:Z O\n*I u2:A I\n")?;
    push_caps(text, size)?;
    push_resistors(text, size)?;
    text.push_all(b"*END\n")?;
    Ok(())
}

/// The SPEF file.
#[tactic(auto, unfolding(crate::specs::ChainSpef::chain_spef))]
pub(crate) fn chain_spef(alloc: Global, size: u32) -> Result<Text, OutOfMemory>
    requires { size ≤ 600000 }
    ensures { IfOk result (λ text. text ≡ spefs.chain_spef size) }
{
    let mut text = begin_spef(alloc)?;
    text.push_all(b"*D_NET a 0\n*CONN\n*P a I\n*I u1:A I\n*END\n")?;
    push_middle(&mut text, size)?;
    text.push_all(b"*D_NET z 1\n*CONN\n*I u2:Z O\n*P z O\n*CAP\n1 u2:Z 1\n*END\n")?;
    Ok(text)
}
