//! Reads the files that are refused, and those whose names and ranges are at fault.
ghost use Rattle.std.specs.Prelude.{◌<◌, ◌^◌, length};

use super::bad_ranges::BAD_RANGES;
use super::faults::FAULTS;
use super::refused::{NOT_STRUCTURAL, REFUSED};
use super::repeated::REPEATED;
use super::unpaired::UNPAIRED;
use edge_io::Text;
use std::alloc::Global;
use std::test::Fail;
use verilog_netlist::{VerilogEnd, parse};

/// The token and the word of a refusal are these; of one that is no refusal of a word the word is empty.
fn is_refused(alloc: Global, bytes: &[u8], token: u64, word: &[u8]) -> bool
    requires { length bytes.now < 2 ^ 30 }
{
    match parse(alloc, bytes) {
        Err(VerilogEnd::Syntax { token: number }) => number == token && word.is_empty(),
        Err(
            VerilogEnd::NotStructural {
                word: found,
                token: number,
            },
        ) => number == token && found.bytes() == word,
        _ => false,
    }
}

#[test]
fn refuses_the_refused_files(rt: HostRuntime) -> Result<(), Fail> {
    for file in REFUSED.as_slice() {
        assert!(rt; file.0.len() < 1 << 20);
        assert!(rt; is_refused(rt.alloc(), file.0, file.1, file.2));
    }
    Ok(())
}

#[test]
fn names_each_word_that_is_not_structural(rt: HostRuntime) -> Result<(), Fail> {
    for word in NOT_STRUCTURAL.as_slice() {
        let mut text = Text::new(rt.alloc());
        text.push_all(b"module m; ")?;
        text.push_all(word)?;
        text.push_all(b" u (); endmodule")?;
        assert!(rt; text.bytes().len() < 1 << 20);
        assert!(rt; is_refused(rt.alloc(), text.bytes(), 4, word));
    }
    Ok(())
}

/// The word of a fault, and the name at fault.
fn fault_word(end: &VerilogEnd) -> (&'static [u8], &[u8]) {
    match end {
        VerilogEnd::Syntax { .. } => (b"syntax", b""),
        VerilogEnd::NotStructural { .. } => (b"word", b""),
        VerilogEnd::Repeated { name } => (b"repeated", name.bytes()),
        VerilogEnd::PortDirection { name } => (b"direction", name.bytes()),
        VerilogEnd::BadRange { name } => (b"range", name.bytes()),
        VerilogEnd::OutOfMemory => (b"memory", b""),
    }
}

/// Whether the fault of a file has this word and this name; of a file without a fault the word is `none`.
fn has_fault(alloc: Global, bytes: &[u8], word: &[u8], name: &[u8]) -> bool
    requires { length bytes.now < 2 ^ 30 }
{
    match parse(alloc, bytes) {
        Ok(_) => word == b"none".as_slice(),
        Err(end) => {
            let (found, at) = fault_word(&end);
            found == word && at == name
        }
    }
}

/// This word, or `none` where no name is at fault.
fn word_for<'a>(word: &'a [u8], name: &[u8]) -> &'a [u8] {
    if name.is_empty() { b"none" } else { word }
}

#[test]
fn finds_the_first_name_that_is_repeated(rt: HostRuntime) -> Result<(), Fail> {
    for file in REPEATED.as_slice() {
        assert!(rt; file.0.len() < 1 << 20);
        assert!(rt; has_fault(rt.alloc(), file.0, word_for(b"repeated", file.1), file.1));
    }
    Ok(())
}

#[test]
fn finds_the_first_name_without_its_pair(rt: HostRuntime) -> Result<(), Fail> {
    for file in UNPAIRED.as_slice() {
        assert!(rt; file.0.len() < 1 << 20);
        assert!(rt; has_fault(rt.alloc(), file.0, word_for(b"direction", file.1), file.1));
    }
    Ok(())
}

#[test]
fn finds_the_first_bad_range(rt: HostRuntime) -> Result<(), Fail> {
    for file in BAD_RANGES.as_slice() {
        assert!(rt; file.0.len() < 1 << 20);
        assert!(rt; has_fault(rt.alloc(), file.0, word_for(b"range", file.1), file.1));
    }
    Ok(())
}

#[test]
fn tells_the_first_fault(rt: HostRuntime) -> Result<(), Fail> {
    for file in FAULTS.as_slice() {
        assert!(rt; file.0.len() < 1 << 20);
        assert!(rt; has_fault(rt.alloc(), file.0, file.1, file.2));
    }
    Ok(())
}
