//! The keywords of SDF.
ghost use Rattle.std.specs.Prelude.{◌≡◌, map};
ghost use Rattle.sdf_reader.specs.Keywords.{same_word, lookup, keyword_of};

/// A keyword that the grammar tells from others.
#[derive(Clone, Copy)]
pub enum Keyword {
    DelayFile,
    Design,
    Divider,
    Timescale,
    Cell,
    CellType,
    Instance,
    Delay,
    Absolute,
    IoPath,
    Interconnect,
    Retain,
}

/// The keywords, those first that stand most often.
const KEYWORDS: [(&[u8], Keyword); 12] = [
    (b"IOPATH", Keyword::IoPath),
    (b"INTERCONNECT", Keyword::Interconnect),
    (b"CELL", Keyword::Cell),
    (b"CELLTYPE", Keyword::CellType),
    (b"INSTANCE", Keyword::Instance),
    (b"DELAY", Keyword::Delay),
    (b"ABSOLUTE", Keyword::Absolute),
    (b"RETAIN", Keyword::Retain),
    (b"DELAYFILE", Keyword::DelayFile),
    (b"DESIGN", Keyword::Design),
    (b"DIVIDER", Keyword::Divider),
    (b"TIMESCALE", Keyword::Timescale),
];

/// One word, in any case of letters.
#[tactic(auto, unfolding(crate::specs::Keywords::same_word))]
fn same_word(one: &[u8], other: &[u8]) -> bool
    ensures { result ≡ same_word one.now other.now }
{
    one.eq_ignore_ascii_case(other)
}

/// What stands in the table beside the word, in any case of letters.
fn look_up(table: &[(&[u8], Keyword)], word: &[u8]) -> Option<Keyword>
    ensures { result ≡ lookup (map (λ k. (k.0.now, k.1)) table.now) word.now }
{
    for keyword in table {
        if same_word(keyword.0, word) {
            return Some(keyword.1);
        }
    }
    None
}

/// The keyword that a word is, if any. Keywords may be in any case of letters.
#[tactic(auto, unfolding(crate::specs::Keywords::keyword_of))]
pub(crate) fn keyword_of(word: &[u8]) -> Option<Keyword>
    ensures { result ≡ keyword_of word.now }
{
    look_up(&KEYWORDS, word)
}
