//! Reserved words.
ghost use Rattle.std.specs.Prelude.{◌≡◌, map};
ghost use Rattle.std.specs.List.{list_all};
ghost use Rattle.verilog_netlist.specs.Words.{look_up, word_kind};
ghost use Rattle.verilog_netlist.specs.WordFilter.{may_begin, goes_on_reserved, may_be_reserved};

use crate::kinds::Kind;
use edge_io::are_equal;

/// The reserved words that the grammar tells from names.
const RESERVED_WORDS: [(&[u8], Kind); 103] = [
    (b"module", Kind::Module),
    (b"endmodule", Kind::EndModule),
    (b"input", Kind::Input),
    (b"output", Kind::Output),
    (b"wire", Kind::Wire),
    (b"assign", Kind::NotStructural),
    (b"always", Kind::NotStructural),
    (b"and", Kind::NotStructural),
    (b"automatic", Kind::NotStructural),
    (b"begin", Kind::NotStructural),
    (b"buf", Kind::NotStructural),
    (b"bufif0", Kind::NotStructural),
    (b"bufif1", Kind::NotStructural),
    (b"case", Kind::NotStructural),
    (b"casex", Kind::NotStructural),
    (b"casez", Kind::NotStructural),
    (b"cmos", Kind::NotStructural),
    (b"deassign", Kind::NotStructural),
    (b"default", Kind::NotStructural),
    (b"defparam", Kind::NotStructural),
    (b"disable", Kind::NotStructural),
    (b"else", Kind::NotStructural),
    (b"end", Kind::NotStructural),
    (b"endcase", Kind::NotStructural),
    (b"endfunction", Kind::NotStructural),
    (b"endgenerate", Kind::NotStructural),
    (b"endprimitive", Kind::NotStructural),
    (b"endspecify", Kind::NotStructural),
    (b"endtable", Kind::NotStructural),
    (b"endtask", Kind::NotStructural),
    (b"event", Kind::NotStructural),
    (b"for", Kind::NotStructural),
    (b"force", Kind::NotStructural),
    (b"forever", Kind::NotStructural),
    (b"fork", Kind::NotStructural),
    (b"function", Kind::NotStructural),
    (b"generate", Kind::NotStructural),
    (b"genvar", Kind::NotStructural),
    (b"if", Kind::NotStructural),
    (b"ifnone", Kind::NotStructural),
    (b"initial", Kind::NotStructural),
    (b"inout", Kind::NotStructural),
    (b"integer", Kind::NotStructural),
    (b"join", Kind::NotStructural),
    (b"localparam", Kind::NotStructural),
    (b"medium", Kind::NotStructural),
    (b"nand", Kind::NotStructural),
    (b"negedge", Kind::NotStructural),
    (b"nmos", Kind::NotStructural),
    (b"nor", Kind::NotStructural),
    (b"not", Kind::NotStructural),
    (b"notif0", Kind::NotStructural),
    (b"notif1", Kind::NotStructural),
    (b"or", Kind::NotStructural),
    (b"parameter", Kind::NotStructural),
    (b"pmos", Kind::NotStructural),
    (b"posedge", Kind::NotStructural),
    (b"primitive", Kind::NotStructural),
    (b"pull0", Kind::NotStructural),
    (b"pull1", Kind::NotStructural),
    (b"pulldown", Kind::NotStructural),
    (b"pullup", Kind::NotStructural),
    (b"rcmos", Kind::NotStructural),
    (b"real", Kind::NotStructural),
    (b"realtime", Kind::NotStructural),
    (b"reg", Kind::NotStructural),
    (b"release", Kind::NotStructural),
    (b"repeat", Kind::NotStructural),
    (b"rnmos", Kind::NotStructural),
    (b"rpmos", Kind::NotStructural),
    (b"rtran", Kind::NotStructural),
    (b"rtranif0", Kind::NotStructural),
    (b"rtranif1", Kind::NotStructural),
    (b"scalared", Kind::NotStructural),
    (b"signed", Kind::NotStructural),
    (b"small", Kind::NotStructural),
    (b"specify", Kind::NotStructural),
    (b"specparam", Kind::NotStructural),
    (b"strong0", Kind::NotStructural),
    (b"strong1", Kind::NotStructural),
    (b"supply0", Kind::NotStructural),
    (b"supply1", Kind::NotStructural),
    (b"table", Kind::NotStructural),
    (b"task", Kind::NotStructural),
    (b"time", Kind::NotStructural),
    (b"tran", Kind::NotStructural),
    (b"tranif0", Kind::NotStructural),
    (b"tranif1", Kind::NotStructural),
    (b"tri", Kind::NotStructural),
    (b"tri0", Kind::NotStructural),
    (b"tri1", Kind::NotStructural),
    (b"triand", Kind::NotStructural),
    (b"trior", Kind::NotStructural),
    (b"trireg", Kind::NotStructural),
    (b"vectored", Kind::NotStructural),
    (b"wait", Kind::NotStructural),
    (b"wand", Kind::NotStructural),
    (b"weak0", Kind::NotStructural),
    (b"weak1", Kind::NotStructural),
    (b"while", Kind::NotStructural),
    (b"wor", Kind::NotStructural),
    (b"xnor", Kind::NotStructural),
    (b"xor", Kind::NotStructural),
];

/// What stands in the table beside the word, or a name.
fn look_up(table: &[(&[u8], Kind)], word: &[u8]) -> Kind
    ensures { result ≡ look_up (map (λ k. (k.0.now, k.1)) table.now) word.now }
{
    for row in table {
        if row.0 == word {
            return row.1;
        }
    }
    Kind::Name
}

/// The second letters of reserved words, by their first letter.
const SECOND_LETTERS: [&[u8]; 26] = [
    b"lnsu", b"eu", b"am", b"ei", b"lnv", b"ou", b"e", b"", b"fn", b"o", b"", b"o", b"eo", b"aemo",
    b"ru", b"amoru", b"", b"cenpt", b"cimptu", b"air", b"", b"e", b"aehio", b"no", b"", b"",
];

/// Whether a reserved word begins with this small letter and that one.
#[inline]
fn may_begin(table: &[&[u8]], first: u8, second: u8) -> bool
    ensures { result ≡ may_begin (map (λ k. k.now) table.now) first second }
{
    match table.get(usize::from(first.saturating_sub(b'a'))) {
        Some(letters) => letters.contains(&second),
        None => false,
    }
}

/// What a reserved word has behind its first two letters: small letters, `0` and `1`.
#[inline]
fn goes_on_reserved(byte: u8) -> bool
    ensures { result ≡ goes_on_reserved byte }
{
    matches!(byte, b'a'..=b'z' | b'0' | b'1')
}

/// Whether all of these bytes may stand in a reserved word.
#[inline]
fn may_go_on(bytes: &[u8]) -> bool
    ensures { result ≡ list_all goes_on_reserved bytes.now }
{
    bytes.iter().all(|byte| goes_on_reserved(*byte))
}

/// Whether a word may be reserved, by its first two letters, its length and its other bytes: a reserved word has at most twelve. Most
/// names of a netlist may not, so the table is looked through for few: not for `n12`, whose second byte is no letter, nor for `net_12`.
#[inline]
fn may_be_reserved(word: &[u8]) -> bool
    ensures { result ≡ may_be_reserved word.now }
{
    match word {
        [first, second, rest @ ..] => {
            matches!(*first, b'a'..=b'z')
                && matches!(*second, b'a'..=b'z')
                && rest.len() <= 10
                && may_begin(&SECOND_LETTERS, *first, *second)
                && may_go_on(rest)
        }
        _ => false,
    }
}

/// What a word is: a reserved word, or a name.
#[inline]
#[tactic(auto, using(crate::proofs::QuickWords::others_are_names, crate::proofs::QuickWords::looked_up))]
pub(crate) fn word_kind(word: &[u8]) -> Kind
    ensures { result ≡ word_kind word.now }
{
    // Most reserved words of a flat netlist are this one.
    if are_equal(word, b"wire") {
        return Kind::Wire;
    }
    if may_be_reserved(word) {
        look_up(&RESERVED_WORDS, word)
    } else {
        Kind::Name
    }
}
