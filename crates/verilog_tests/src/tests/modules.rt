//! Reads files as modules.
ghost use Rattle.std.specs.Prelude.{◌<◌, ◌^◌, length};
ghost use Rattle.verilog_netlist.specs.NetModules.{module_at, instance_at, connection_at};

use super::accepted::ACCEPTED;
use super::parsed::PARSED;
use edge_io::Text;
use std::alloc::Global;
use std::test::Fail;
use verilog_netlist::{Bit, Modules, Range, Run, Way, parse};

/// Adds a number.
fn tell_number(alloc: Global, text: &mut Text, number: usize) -> Result<(), Fail> {
    let digits = format!(in alloc; "{}", number)?;
    text.push_all(digits.as_bytes())?;
    Ok(())
}

/// Adds a range in brackets behind a space.
fn tell_range(alloc: Global, text: &mut Text, range: Range) -> Result<(), Fail> {
    let bounds = format!(in alloc; " [{}:{}]", range.left, range.right)?;
    text.push_all(bounds.as_bytes())?;
    Ok(())
}

fn way_word(way: Way) -> &'static [u8] {
    match way {
        Way::In => b"in ",
        Way::Out => b"out ",
        Way::Inner => b"inner ",
    }
}

fn tell_names(alloc: Global, text: &mut Text, modules: &Modules<'_>, m: usize) -> Result<(), Fail>
    requires { m < length modules.now }
{
    for i in 0..modules.name_count(m) {
        text.push_all(way_word(modules.way(m, i)))?;
        text.push_all(modules.name(m, i))?;
        if let Some(range) = modules.range(m, i) {
            tell_range(alloc, text, range)?;
        }
        text.push_all(b"\n")?;
    }
    Ok(())
}

/// Adds a bit behind a space.
fn tell_bit(
    alloc: Global,
    text: &mut Text,
    modules: &Modules<'_>,
    m: usize,
    bit: Bit,
) -> Result<(), Fail>
    requires { m < length modules.now }
{
    match bit {
        Bit::Tied => text.push_all(b" tied")?,
        Bit::Wire { name, bit } => {
            text.push_all(b" ")?;
            if name < modules.name_count(m) {
                text.push_all(modules.name(m, name))?;
            }
            text.push_all(b".")?;
            tell_number(alloc, text, bit)?;
        }
    }
    Ok(())
}

fn tell_connection(
    alloc: Global,
    text: &mut Text,
    modules: &Modules<'_>,
    m: usize,
    k: usize,
    c: usize,
) -> Result<(), Fail>
    requires within { m < length modules.now }
    requires instance { k < length (module_at modules.now m).instances }
    requires place { c < length (instance_at modules.now m k).connections }
{
    text.push_all(b"port ")?;
    text.push_all(modules.port(m, k, c))?;
    for b in 0..modules.bit_count(m, k, c) {
        if let Some(bit) = modules.get_bit(m, k, c, b) {
            tell_bit(alloc, text, modules, m, bit)?;
        }
    }
    text.push_all(b"\n")?;
    Ok(())
}

fn tell_instance(
    alloc: Global,
    text: &mut Text,
    modules: &Modules<'_>,
    m: usize,
    k: usize,
) -> Result<(), Fail>
    requires within { m < length modules.now }
    requires place { k < length (module_at modules.now m).instances }
{
    text.push_all(b"instance ")?;
    text.push_all(modules.instance_of(m, k))?;
    text.push_all(b" ")?;
    text.push_all(modules.instance_name(m, k))?;
    text.push_all(b"\n")?;
    for c in 0..modules.connection_count(m, k) {
        tell_connection(alloc, text, modules, m, k, c)?;
    }
    Ok(())
}

fn tell_modules(alloc: Global, text: &mut Text, modules: &Modules<'_>) -> Result<(), Fail> {
    for m in 0..modules.module_count() {
        text.push_all(b"module ")?;
        text.push_all(modules.module_name(m))?;
        text.push_all(b"\n")?;
        tell_names(alloc, text, modules, m)?;
        for k in 0..modules.instance_count(m) {
            tell_instance(alloc, text, modules, m, k)?;
        }
    }
    Ok(())
}

/// The modules of a file, or that it is refused.
fn told(alloc: Global, bytes: &[u8]) -> Result<Text, Fail>
    requires { length bytes.now < 2 ^ 30 }
{
    let mut text = Text::new(alloc);
    match parse(alloc, bytes) {
        Ok(modules) => tell_modules(alloc, &mut text, &modules)?,
        Err(_) => text.push_all(b"refused")?,
    }
    Ok(text)
}

#[test]
fn says_the_modules_of_the_files(rt: HostRuntime) -> Result<(), Fail> {
    for file in PARSED.as_slice() {
        assert!(rt; file.0.len() < 1 << 20);
        let text = told(rt.alloc(), file.0)?;
        assert_eq!(rt; text.bytes(), file.1);
    }
    Ok(())
}

#[test]
fn says_the_modules_of_the_accepted_files(rt: HostRuntime) -> Result<(), Fail> {
    for file in ACCEPTED.as_slice() {
        assert!(rt; file.0.len() < 1 << 20);
        let text = told(rt.alloc(), file.0)?;
        assert_eq!(rt; text.bytes(), file.1);
    }
    Ok(())
}

/// A bit of a connection of the first instance of the first module, if there is one.
fn bit_of(modules: &Modules<'_>, c: usize, b: usize) -> Option<Bit> {
    if modules.module_count() == 0 {
        return None;
    }
    if modules.instance_count(0) == 0 {
        return None;
    }
    if c >= modules.connection_count(0, 0) {
        return None;
    }
    modules.get_bit(0, 0, c, b)
}

/// Whether this is this bit of a name.
fn is_wire(found: Bit, of: usize, at: usize) -> bool {
    match found {
        Bit::Wire { name, bit } => name == of && bit == at,
        Bit::Tied => false,
    }
}

/// Whether the bit of a connection is this bit of a name.
fn joins(modules: &Modules<'_>, c: usize, b: usize, name: usize, bit: usize) -> bool {
    match bit_of(modules, c, b) {
        Some(found) => is_wire(found, name, bit),
        None => false,
    }
}

/// A run of a connection of the first instance of the first module, if there is one.
fn run_of(modules: &Modules<'_>, c: usize, r: usize) -> Option<Run> {
    if modules.module_count() == 0 {
        return None;
    }
    if modules.instance_count(0) == 0 {
        return None;
    }
    if c >= modules.connection_count(0, 0) {
        return None;
    }
    if r >= modules.run_count(0, 0, c) {
        return None;
    }
    Some(modules.run(0, 0, c, r))
}

/// Whether the run of a connection is these bits of a name.
fn runs_over(
    modules: &Modules<'_>,
    c: usize,
    r: usize,
    name: usize,
    bit: usize,
    count: usize,
) -> bool {
    match run_of(modules, c, r) {
        Some(run) => is_wire(run.first, name, bit) && run.count == count,
        None => false,
    }
}

/// Wires of 65,536 bits that are joined whole: connection, its bit, the name and its bit.
const WIDE: [(usize, usize, usize, usize); 6] = [
    (0, 0, 0, 0),
    (0, 65_535, 0, 65_535),
    (1, 0, 1, 1),
    (1, 65_534, 1, 65_535),
    (1, 65_535, 0, 65_535),
    (0, 4_096, 0, 4_096),
];

#[test]
fn computes_the_bits_of_wide_connections(rt: HostRuntime) -> Result<(), Fail> {
    let file =
        b"module m; wire [65535:0] a; wire [0:65535] b; I u (.A(a), .B({b[1:65535], a[0]})); endmodule";
    match parse(rt.alloc(), file) {
        Ok(modules) => {
            for row in WIDE.as_slice() {
                assert!(rt; joins(&modules, row.0, row.1, row.2, row.3));
            }
            assert!(rt; runs_over(&modules, 0, 0, 0, 0, 65_536));
            assert!(rt; runs_over(&modules, 1, 0, 1, 1, 65_535));
            assert!(rt; runs_over(&modules, 1, 1, 0, 65_535, 1));
            assert!(rt; run_of(&modules, 0, 1).is_none());
            assert!(rt; run_of(&modules, 1, 2).is_none());
            assert!(rt; bit_of(&modules, 0, 65_536).is_none());
            assert!(rt; bit_of(&modules, 1, 65_536).is_none());
        }
        Err(_) => assert!(rt; false),
    }
    Ok(())
}

#[test]
fn finds_modules_by_name(rt: HostRuntime) -> Result<(), Fail> {
    let file = b"module top; endmodule module \\leaf+ (x); input x; endmodule module n; endmodule";
    match parse(rt.alloc(), file) {
        Ok(modules) => {
            assert!(rt; modules.find(b"top") == Some(0));
            assert!(rt; modules.find(b"leaf+") == Some(1));
            assert!(rt; modules.find(b"n") == Some(2));
            // a port's name, and a part of a name, are no names of modules
            assert!(rt; modules.find(b"x").is_none());
            assert!(rt; modules.find(b"to").is_none());
            assert!(rt; modules.find(b"").is_none());
        }
        Err(_) => assert!(rt; false),
    }
    Ok(())
}
