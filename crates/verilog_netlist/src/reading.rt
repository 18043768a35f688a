//! Reads a netlist, or tells at which token it is none.
ghost use Rattle.std.specs.Prelude.{◌≡◌, ◌+◌, ◌^◌, ◌<◌, ◌≤◌, List, length, drop, IfOk, IfErr};
ghost use Rattle.token_texts.specs.Blanks.{is_blank};
ghost use Rattle.token_texts.specs.Runs.{run_length};
ghost use Rattle.token_texts.specs.Spans.{text_at};
ghost use Rattle.verilog_netlist.specs.Tokens.{span_of};
ghost use Rattle.verilog_netlist.specs.Netlists.{SaysNetlist};
ghost use Rattle.verilog_netlist.specs.Netlist.{IsRefused, HasItsWord, Gives};
ghost use Rattle.verilog_netlist.specs.ReaderStates.{IsRefusalOf};
ghost use Rattle.verilog_netlist.specs.declared.entries.Entry.{Entry};

use crate::entries::Entry;
use crate::kinds::Kind;
use crate::netlist::VerilogEnd;
use crate::reader::Reader;
use crate::scan::cut_at;
use edge_io::Text;
use std::alloc::Global;
use token_texts::{Blank, Cut, Span, run_length};

/// The place of the name of a token that begins here with this byte, and has so many bytes.
#[inline]
fn span_of(first: u8, start: usize, len: usize) -> Span
    requires some { 0 < len }
    requires within { start + len < 2 ^ 32 }
    ensures { result ≡ span_of first start len }
{
    if first == b'\\' {
        Span {
            start: start as u32 + 1,
            len: len as u32 - 1,
        }
    } else {
        Span {
            start: start as u32,
            len: len as u32,
        }
    }
}

/// The refusal of the token of this number and kind at this place.
fn refusal(alloc: Global, bytes: &[u8], number: u64, kind: Kind, at: Span) -> VerilogEnd
    ensures { IsRefusalOf bytes.now number kind at result }
{
    match kind {
        Kind::NotStructural => match Text::from_bytes(alloc, at.of(bytes)) {
            Ok(word) => VerilogEnd::NotStructural {
                word,
                token: number,
            },
            Err(_) => VerilogEnd::OutOfMemory,
        },
        _ => VerilogEnd::Syntax { token: number },
    }
}

/// So many bytes that are passed over, and the blanks behind them.
#[inline]
fn with_blanks(count: usize, rest: &[u8]) -> usize
    requires { count ≤ length rest.now }
    ensures value { result ≡ count + run_length is_blank (drop count rest.now) }
    ensures within { result ≤ length rest.now }
{
    count + run_length::<Blank>(rest.split_at(count).1)
}

/// Reads the bytes of a netlist, in one pass.
pub(crate) fn read_entries(alloc: Global, bytes: &[u8]) -> Result<Vec<Entry>, VerilogEnd>
    requires { length bytes.now < 2 ^ 30 }
    // What is answered is what the bytes say.
    ensures ok { IfOk result (λ entries. SaysNetlist bytes.now entries.items) }
    // There are no more entries than bytes.
    ensures few { IfOk result (λ entries. length entries.items ≤ length bytes.now) }
    // A refusal's token is the one with which the bytes leave the grammar.
    ensures refused { IfErr result (IsRefused bytes.now) }
    // It is `NotStructural`, with the word, exactly where that token is a reserved word that the grammar has nowhere.
    ensures word { IfErr result (HasItsWord bytes.now) }
    // What the bytes say is answered, unless memory ran out.
    ensures only { (entries : List Entry) → SaysNetlist bytes.now entries → Gives (λ answer. answer.items) entries result }
{
    let mut reader = Reader::new(alloc);
    let mut number = 1;
    let mut start = 0;
    let mut rest = bytes;
    while let [first, behind @ ..] = rest {
        match cut_at(rest, *first, behind) {
            Cut::Skip(count) => {
                let passed = with_blanks(count, rest);
                rest = rest.split_at(passed).1;
                start += passed;
            }
            Cut::Take(count, kind) => {
                let at = span_of(*first, start, count);
                rest = rest.split_at(count).1;
                match reader.take(kind, at) {
                    Ok(true) => {}
                    Ok(false) => return Err(refusal(alloc, bytes, number, kind, at)),
                    Err(_) => return Err(VerilogEnd::OutOfMemory),
                }
                number += 1;
                start += count;
            }
        }
    }
    match reader.finish() {
        Some(entries) => Ok(entries),
        None => Err(VerilogEnd::Syntax { token: number }),
    }
}
