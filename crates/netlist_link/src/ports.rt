//! The bits of the ports of a flat design, and their nets.
ghost use Rattle.std.specs.Prelude.{◌≡◌, ◌<◌, ◌≤◌, ◌^◌, List, [], ◌∷◌, ◌++◌, length, slice_get, Some, IsTrue, ◌↔◌, IfOk, IfSome, OnOk};
ghost use Rattle.name_table.specs.SdfNames.{part};
ghost use Rattle.cell_models.specs.NamedSets.{NamedCells};
ghost use Rattle.verilog_netlist.specs.NetModules.{module_at, name_at};
ghost use Rattle.verilog_netlist.specs.Ranges.{whole_width};
ghost use Rattle.verilog_netlist.specs.declared.net_names.Way.TheVariants.{In};
ghost use Rattle.netlist_link.specs.BitTables.{nets_of};
ghost use Rattle.netlist_link.specs.FlatBits.{ports_of_name};
ghost use Rattle.netlist_link.specs.FlatBitTables.{AreFlatBits};
ghost use Rattle.netlist_link.specs.FlatNames.{index_at, bit_suffix};
ghost use Rattle.netlist_link.specs.Links.{ArePorts};
ghost use Rattle.netlist_link.specs.PathTables.{IsWalk, top_of};
ghost use Rattle.netlist_link.specs.PortRows.{ports_in, ArePortTables, IsPortAdded, AddsPorts, top_bit};

use crate::checking::Design;
use crate::flat_bits::FlatBits;
use crate::flat_names::push_index;
use crate::port_numbers::is_port;
use edge_io::lists::push;
use edge_io::{OutOfMemory, Text, TextList};
use name_table::escape_sdf;
use std::alloc::Global;
use verilog_netlist::{Bit, Range, Way};

/// The ports of the design: their names, and their nets with the way of each.
#[derive(Drop)]
pub(crate) struct Ports {
    pub texts: TextList,
    pub spellings: TextList,
    pub nets: Vec<u32>,
    pub are_inputs: Vec<bool>,
}

// Whether a name of this way is an input.
fn is_input(way: Way) -> bool
    ensures { IsTrue result ↔ (way ≡ In) }
{
    match way {
        Way::In => true,
        Way::Out => false,
        Way::Inner => false,
    }
}

// The name of a bit.
fn bit_text(
    alloc: Global,
    name: &[u8],
    range: Option<Range>,
    bit: usize,
) -> Result<Text, OutOfMemory>
    requires few { bit < 2 ^ 32 }
    requires fits { IfSome range (λ range. index_at range bit < 2 ^ 32) }
    ensures { IfOk result (λ text. text ≡ name.now ++ bit_suffix range bit) }
{
    let mut text = Text::from_bytes(alloc, name)?;
    push_index(&mut text, range, bit)?;
    Ok(text)
}

// The same as SDF spells it.
fn bit_spelling(
    alloc: Global,
    name: &[u8],
    range: Option<Range>,
    bit: usize,
) -> Result<Text, OutOfMemory>
    requires few { bit < 2 ^ 32 }
    requires fits { IfSome range (λ range. index_at range bit < 2 ^ 32) }
    ensures { IfOk result (λ text. text ≡ part name.now ++ bit_suffix range bit) }
{
    let mut text = escape_sdf(alloc, name)?;
    push_index(&mut text, range, bit)?;
    Ok(text)
}

// The net of a bit of a name of the top module.
fn top_net(design: &Design<'_>, bits: &FlatBits, m: usize, i: usize, bit: usize) -> u32
    requires top { m ≡ top_of design.now.walk.now }
    requires place { i < length (module_at design.now.modules.now m).names }
    requires bit { bit < whole_width (name_at design.now.modules.now m i).range }
    requires bits { AreFlatBits design.now bits.now }
    ensures { slice_get (nets_of design.now) result ≡ Some (top_bit i bit) }
{
    let net = bits.net(0, m, Bit::Wire { name: i, bit });
    net.unwrap_or(0)
}

// Puts the names, the net and the way of a bit at the ends.
fn keep_port(
    ports: &mut Ports,
    text: Text,
    spelling: Text,
    net: u32,
    is_input: bool,
) -> Result<(), OutOfMemory>
    ensures { OnOk result (IsPortAdded ports.old ports.new (record { text = text; sdf = spelling; net = net; is_input = is_input })) }
{
    ports.texts.push(text)?;
    ports.spellings.push(spelling)?;
    push(&mut ports.nets, net)?;
    push(&mut ports.are_inputs, is_input)?;
    Ok(())
}

// Puts a bit of a port more at the end.
fn add_bit(
    alloc: Global,
    design: &Design<'_>,
    bits: &FlatBits,
    i: usize,
    bit: usize,
    ports: &mut Ports,
) -> Result<(), OutOfMemory>
    requires walk { IsWalk design.now.modules.now design.now.walk.now }
    requires within { top_of design.now.walk.now < length design.now.modules.now }
    requires place { i < length (module_at design.now.modules.now (top_of design.now.walk.now)).names }
    requires bit { bit < whole_width (name_at design.now.modules.now (top_of design.now.walk.now) i).range }
    requires few { bit < 2 ^ 32 }
    requires bits { AreFlatBits design.now bits.now }
    ensures { OnOk result (AddsPorts design.now (top_bit i bit ∷ []) ports.old ports.new) }
{
    let m = top_module(design);
    let name = design.modules.name(m, i);
    let range = design.modules.range(m, i);
    let text = bit_text(alloc, name, range, bit)?;
    let spelling = bit_spelling(alloc, name, range, bit)?;
    let net = top_net(design, bits, m, i, bit);
    let way = design.modules.way(m, i);
    let input = is_input(way);
    keep_port(ports, text, spelling, net, input)?;
    Ok(())
}

/// The top module.
pub(crate) fn top_module(design: &Design<'_>) -> usize
    requires { IsWalk design.now.modules.now design.now.walk.now }
    ensures { result ≡ top_of design.now.walk.now }
{
    design.walk.visits()[0].module as usize
}

// Puts the bits of a name of the top module at the end, if it is a port.
fn add_port(
    alloc: Global,
    design: &Design<'_>,
    bits: &FlatBits,
    i: usize,
    ports: &mut Ports,
) -> Result<(), OutOfMemory>
    requires walk { IsWalk design.now.modules.now design.now.walk.now }
    requires within { top_of design.now.walk.now < length design.now.modules.now }
    requires place { i < length (module_at design.now.modules.now (top_of design.now.walk.now)).names }
    requires bits { AreFlatBits design.now bits.now }
    ensures { OnOk result (AddsPorts design.now (ports_of_name design.now.modules.now (top_of design.now.walk.now) i) ports.old ports.new) }
{
    let m = top_module(design);
    let way = design.modules.way(m, i);
    let port = is_port(way);
    if !port {
        return Ok(());
    }
    for bit in 0..design.modules.width(m, i) {
        add_bit(alloc, design, bits, i, bit, ports)?;
    }
    Ok(())
}

/// The bits of the ports of the top module, in header order and from the left.
pub(crate) fn top_ports(
    alloc: Global,
    design: &Design<'_>,
    bits: &FlatBits,
) -> Result<Ports, OutOfMemory>
    requires walk { IsWalk design.now.modules.now design.now.walk.now }
    requires within { top_of design.now.walk.now < length design.now.modules.now }
    requires bits { AreFlatBits design.now bits.now }
    ensures tables { IfOk result ArePortTables }
    ensures are { (cells : List NamedCells)
        → IfOk result (λ ports. ArePorts design.now.modules.now (top_of design.now.walk.now) cells (ports_in ports)) }
{
    let mut ports = Ports {
        texts: TextList::new(alloc),
        spellings: TextList::new(alloc),
        nets: Vec::new(alloc),
        are_inputs: Vec::new(alloc),
    };
    let m = top_module(design);
    for i in 0..design.modules.name_count(m) {
        add_port(alloc, design, bits, i, &mut ports)?;
    }
    Ok(ports)
}
