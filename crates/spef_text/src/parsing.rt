//! Reads a SPEF file, or tells at which token it is none.
ghost use Rattle.std.specs.Prelude.{◌≡◌, ◌^◌, ◌<◌, length, IfOk, IfErr, MatchResult};
ghost use Rattle.spef_text.specs.Classes.{word_of};
ghost use Rattle.spef_text.specs.Entries.{Reading};
ghost use Rattle.spef_text.specs.SpefFiles.{Reads, SaysSpef, IsDead, HasForm, is_refused_word, IsRefusalOf};

use crate::file::SpefFile;
use crate::reader::Reader;
use crate::words::{Word, word_of};
use edge_io::{OutOfMemory, Text};
use std::alloc::Global;
use token_texts::{ReadEnd, read_tokens};

/// Why a file is not read. Tokens count from 1, comments and blanks left out.
#[derive(Drop)]
pub enum SpefEnd {
    /// No text of the grammar begins with the tokens up to this one, or, one past the last token, the file ends too early.
    Syntax { token: u64 },

    /// The same, where the token is a word that is refused by name: `*R_NET`, `*R_PNET`, `*D_PNET`, `*DEFINE`, `*PDEFINE`
    /// or `*INDUC`.
    Form { word: Text, token: u64 },

    /// There was no memory for what the file says.
    OutOfMemory,
}

fn is_refused_word(word: Option<Word>) -> bool
    ensures { result ≡ is_refused_word word }
{
    matches!(word, Some(Word::Refused | Word::Induc))
}

/// The refusal of a token of this number and text.
pub(crate) fn refusal(alloc: Global, token: u64, text: &[u8]) -> SpefEnd
    ensures { IsRefusalOf text.now token result }
{
    if !is_refused_word(word_of(text)) {
        return SpefEnd::Syntax { token };
    }
    match Text::from_bytes(alloc, text) {
        Ok(word) => SpefEnd::Form { word, token },
        Err(_) => SpefEnd::OutOfMemory,
    }
}

/// Reads the bytes of a SPEF file (IEEE 1481), in one pass.
///
/// `Syntax` and `Form` come exactly where the bytes are no text of the grammar; their token is the first with which no text
/// of the grammar begins.
pub fn parse(alloc: Global, bytes: &[u8]) -> Result<SpefFile<'_>, SpefEnd>
    requires { length bytes.now < 2 ^ 30 }
    // What is answered is what the bytes say.
    ensures ok { IfOk result (Reads bytes.now) }
    // A refusal's token is the one with which the bytes leave the grammar, and they say nothing.
    ensures dead { IfErr result (IsDead bytes.now) }
    // It is `Form`, with the word, exactly where that token is a refused word.
    ensures form { IfErr result (HasForm bytes.now) }
    // What the bytes say is answered, unless memory ran out.
    ensures only { (reading : Reading) → SaysSpef bytes.now reading
        → MatchResult result (λ file. file.reading ≡ reading) (λ end. end ≡ SpefEnd.OutOfMemory) }
{
    match read_tokens(Reader::new(alloc), bytes) {
        Ok(reader) => Ok(SpefFile {
            bytes,
            starts: reader.starts,
            lens: reader.lens,
            head: reader.head,
            sections: reader.sections,
        }),
        Err(ReadEnd::Refused(_, _, end)) => Err(end),
        Err(ReadEnd::OutOfMemory) => Err(SpefEnd::OutOfMemory),
    }
}
