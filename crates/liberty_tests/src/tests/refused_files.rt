//! Small files that are refused. The expected answers are another reader's of the same grammar.
use liberty_groups::{Cause, ParseEnd, parse};
use std::alloc::Global;

/// The word of a cause, as the table writes it.
fn word_of(cause: Cause) -> &'static [u8] {
    match cause {
        Cause::BadByte => b"byte",
        Cause::OpenText => b"text",
        Cause::OpenComment => b"comment",
        Cause::Unexpected => b"token",
        Cause::EndInside => b"end",
        Cause::TooDeep => b"deep",
        Cause::NotLibrary => b"library",
    }
}

/// A file; the number of its dead token, its line, and the cause.
type Row = (&'static [u8], u64, u64, &'static [u8]);

const ROWS: [Row; 26] = [
    (b"", 1, 1, b"end"),
    (b"\n\n", 1, 3, b"end"),
    (b"cell (x) { }", 1, 1, b"library"),
    (b"\"library\" (x) { }", 1, 1, b"library"),
    (b"library : x", 2, 1, b"token"),
    (b"library (x) {", 6, 1, b"end"),
    (b"library (x) { a : 1 b : 2 }", 10, 1, b"token"),
    (b"library (x) { values (\"20", 8, 1, b"text"),
    (b"library (x) { a : \"\\\" }", 8, 1, b"text"),
    (b"library (x) { a : 1;\n/* x", 10, 2, b"comment"),
    (b"library (x) { a/* : 1 }", 7, 1, b"comment"),
    (b"// x", 1, 1, b"end"),
    (b"library (x) { \"a\" : 1; }", 6, 1, b"token"),
    (b"library (x) { include_file (a); }", 6, 1, b"token"),
    (b"library (x) { a (1 : 2); }", 9, 1, b"token"),
    (b"library (x) { a {} }", 7, 1, b"token"),
    (b"library (x) { } a", 7, 1, b"token"),
    (b"library (x) { a : 1 \\\n b : 2; }", 10, 2, b"token"),
    (b"library (x) { a : 1 // c\n : 2; }", 9, 2, b"token"),
    (b"library (x) {\n a : 1;\n b\n : 2\n c }", 14, 5, b"token"),
    (b"library (x) { a : b\x7f; }", 9, 1, b"byte"),
    (b"library (x) { a\\\n: 1 }\n\\ x", 10, 3, b"byte"),
    (b"library (x) { a : b[1:2 c : d ] }", 10, 1, b"token"),
    (b"library (x) { g () { a : 1 \n\n", 13, 3, b"end"),
    (
        b"library(x){g(){g(){g(){g(){g(){g(){g(){g(){g(){g(){g(){g(){g(){g(){g(){g(){}}}}}}}}}}}}}}}}}",
        69,
        1,
        b"deep",
    ),
    (
        b"library(x){g(){g(){g(){g(){g(){g(){g(){g(){g(){g(){g(){g(){g(){g(){g(){g() a : {",
        71,
        1,
        b"token",
    ),
];

fn is_refused(alloc: Global, row: &Row) -> bool {
    if row.0.len() >= 1 << 20 {
        return false;
    }
    match parse(alloc, row.0) {
        Err(ParseEnd::Syntax(fault)) => {
            fault.token == row.1 && fault.line == row.2 && word_of(fault.cause) == row.3
        }
        _ => false,
    }
}

/// The first file that is not refused as the table says.
fn first_other(alloc: Global) -> Option<usize> {
    for (number, row) in ROWS.iter().enumerate() {
        if !is_refused(alloc, row) {
            return Some(number);
        }
    }
    None
}

#[test]
fn refuses_the_refused_files(rt: HostRuntime) {
    assert_eq!(rt; first_other(rt.alloc()), None);
}
