//! Designs as large as a limit, and larger.
use super::telling::told;
use edge_io::Text;
use std::alloc::Global;
use std::test::Fail;

/// Adds so many modules `m0`, `m1`, .., each of which holds the next one so many times, under the last one, which holds a cell.
fn add_chain(alloc: Global, text: &mut Text, modules: u32, times: u32) -> Result<(), Fail> {
    for m in 0..modules {
        let head = format!(in alloc; "module m{};", m)?;
        text.push_all(head.as_bytes())?;
        for k in 0..times {
            let lower = format!(in alloc; " m{} x{} ();", u64::from(m) + 1, k)?;
            text.push_all(lower.as_bytes())?;
        }
        text.push_all(b" endmodule\n")?;
    }
    Ok(())
}

/// Adds a module that has one instance of a cell with so many connections.
fn add_cell(alloc: Global, text: &mut Text, module: u32, ports: u32) -> Result<(), Fail> {
    let head = format!(in alloc; "module m{}; INV g (", module)?;
    text.push_all(head.as_bytes())?;
    for port in 0..ports {
        let join = format!(in alloc; "{}.P{}()", if port == 0 { "" } else { ", " }, port)?;
        text.push_all(join.as_bytes())?;
    }
    text.push_all(b"); endmodule\n")?;
    Ok(())
}

/// Modules that hold the next one, how often each does, the ports of the cell in the last, and what is told.
const CHAINS: [(u32, u32, u32, &'static [u8]); 7] = [
    (0, 0, 1, b"INV "),
    (63, 1, 1, b"INV "),
    (64, 1, 1, b"depth"),
    (63, 2, 1, b"instances"),
    (22, 2, 1, b"instances"),
    (18, 2, 17, b"pins"),
    (64, 2, 1, b"depth"),
];

#[test]
fn tells_the_limits_of_chains(rt: HostRuntime) -> Result<(), Fail> {
    for row in CHAINS.as_slice() {
        let mut text = Text::new(rt.alloc());
        add_chain(rt.alloc(), &mut text, row.0, row.1)?;
        add_cell(rt.alloc(), &mut text, row.0, row.2)?;
        assert!(rt; text.len() < 1 << 20);
        let cells = told(rt.alloc(), text.bytes(), b"m0")?;
        assert_eq!(rt; cells.bytes(), row.3);
    }
    Ok(())
}

/// So many wires of 65,536 bits in one module.
const WIRES: [(u32, &'static [u8]); 2] = [(64, b""), (65, b"names")];

#[test]
fn tells_the_limit_of_names(rt: HostRuntime) -> Result<(), Fail> {
    for row in WIRES.as_slice() {
        let mut text = Text::from_bytes(rt.alloc(), b"module m0;")?;
        for wire in 0..row.0 {
            let line = format!(in rt.alloc(); " wire [65535:0] w{};", wire)?;
            text.push_all(line.as_bytes())?;
        }
        text.push_all(b" endmodule")?;
        assert!(rt; text.len() < 1 << 20);
        let cells = told(rt.alloc(), text.bytes(), b"m0")?;
        assert_eq!(rt; cells.bytes(), row.1);
    }
    Ok(())
}
