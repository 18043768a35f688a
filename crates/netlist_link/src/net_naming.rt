//! The names of the nets of a design, no two of which are the same.
ghost use Rattle.std.specs.Prelude.{◌≡◌, ◌<◌, ◌++◌, ◌∷◌, [], length, IfOk, IfErr, OnOk};
ghost use Rattle.verilog_netlist.specs.Ranges.{whole_width};
ghost use Rattle.netlist_link.specs.FlatNames.{net_text, bit_suffix};
ghost use Rattle.netlist_link.specs.Clashes.{AreNamed, IsClash, texts_of_nets};
ghost use Rattle.netlist_link.specs.PathTables.{IsWalk, top_of, ArePaths};
ghost use Rattle.netlist_link.specs.BitTables.{IsBitOf, net_bit_of, AreNetPlaces};

use crate::checking::Design;
use crate::ends::LinkEnd;
use crate::flat_bits::{FlatBits, NetPlace};
use crate::flat_names::push_index;
use crate::name_clashes::check_nets;
use edge_io::{OutOfMemory, Text};
use std::alloc::Global;
use text_table::FlatTexts;
use verilog_netlist::Range;

// Puts the index of a bit of a name with this range behind it; a name without a range has none.
#[tactic(auto, using(crate::proofs::NetTexts::index_fits))]
fn push_bit(text: &mut Text, range: Option<Range>, bit: u32) -> Result<(), OutOfMemory>
    requires { bit < whole_width range }
    ensures { OnOk result (text.new ≡ text.old ++ bit_suffix range bit) }
{
    match range {
        Some(range) => push_index(text, Some(range), bit as usize),
        None => Ok(()),
    }
}

// Puts a path, a name and the index of a bit of it at the end.
fn push_indexed(
    alloc: Global,
    path: &[u8],
    name: &[u8],
    range: Option<Range>,
    bit: u32,
    names: &mut FlatTexts,
) -> Result<(), OutOfMemory>
    requires { bit < whole_width range }
    ensures { OnOk result (names.new ≡ names.old ++ (path.now ++ name.now ++ bit_suffix range bit) ∷ []) }
{
    let mut index = Text::new(alloc);
    push_bit(&mut index, range, bit)?;
    names.push_joined(path, name, index.bytes())
}

// Puts a path and a name at the end, and the index of a bit where the name has a range.
fn push_net_name(
    alloc: Global,
    path: &[u8],
    name: &[u8],
    range: Option<Range>,
    bit: u32,
    names: &mut FlatTexts,
) -> Result<(), OutOfMemory>
    requires { bit < whole_width range }
    ensures { OnOk result (names.new ≡ names.old ++ (path.now ++ name.now ++ bit_suffix range bit) ∷ []) }
{
    match range {
        None => names.push(path, name),
        Some(_) => push_indexed(alloc, path, name, range, bit, names),
    }
}

// Puts the name of a net at the end, with the index of its bit where it is a vector's.
fn add_net_name(
    alloc: Global,
    design: &Design<'_>,
    net: NetPlace,
    names: &mut FlatTexts,
) -> Result<(), OutOfMemory>
    requires walk { IsWalk design.now.modules.now design.now.walk.now }
    requires paths { ArePaths design.now.modules.now (top_of design.now.walk.now) design.now.paths.now }
    requires bit { IsBitOf design.now net.visit net.name net.bit }
    ensures { OnOk result (names.new
        ≡ names.old ++ net_text design.now.modules.now (top_of design.now.walk.now) (net_bit_of design.now net) ∷ []) }
{
    let visits = design.walk.visits();
    let m = visits[net.visit as usize].module as usize;
    let i = net.name as usize;
    let range = design.modules.range(m, i);
    let path = design.paths.text(net.visit as usize);
    let name = design.modules.name(m, i);
    push_net_name(alloc, path, name, range, net.bit, names)
}

// The names of all nets.
fn all_net_names(
    alloc: Global,
    design: &Design<'_>,
    bits: &FlatBits,
) -> Result<FlatTexts, OutOfMemory>
    requires walk { IsWalk design.now.modules.now design.now.walk.now }
    requires paths { ArePaths design.now.modules.now (top_of design.now.walk.now) design.now.paths.now }
    requires nets { AreNetPlaces design.now bits.now.nets.items }
    ensures { IfOk result (λ names. names ≡ texts_of_nets design.now) }
{
    let mut names = FlatTexts::with_room(alloc, bits.nets.len())?;
    for net in bits.nets.as_slice() {
        add_net_name(alloc, design, *net, &mut names)?;
    }
    Ok(names)
}

/// The names of all nets, or the first that an earlier net has.
#[tactic(auto, using(crate::specs::Clashes::no_room_is))]
pub(crate) fn net_names(
    alloc: Global,
    design: &Design<'_>,
    bits: &FlatBits,
) -> Result<FlatTexts, LinkEnd>
    requires walk { IsWalk design.now.modules.now design.now.walk.now }
    requires paths { ArePaths design.now.modules.now (top_of design.now.walk.now) design.now.paths.now }
    requires top { top_of design.now.walk.now < length design.now.modules.now }
    requires nets { AreNetPlaces design.now bits.now.nets.items }
    ensures named { IfOk result (AreNamed (texts_of_nets design.now)) }
    ensures refused { IfErr result (IsClash (texts_of_nets design.now)) }
{
    let names = all_net_names(alloc, design, bits)?;
    match check_nets(alloc, design, &names) {
        Ok(()) => Ok(names),
        Err(end) => Err(end),
    }
}
