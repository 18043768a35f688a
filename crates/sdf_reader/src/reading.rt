//! Reads an SDF file.
ghost use Rattle.std.specs.Prelude.{◌<◌, ◌^◌, List, length, IfOk};
ghost use Rattle.sdf_reader.specs.Causes.{IsFault};
ghost use Rattle.sdf_reader.specs.Answers.{SaysRows, IfSyntax, Gives};
ghost use Rattle.sdf_reader.specs.declared.rows.SdfRow.{SdfRow};

use crate::ends::SdfEnd;
use crate::reader::Reader;
use crate::rows::SdfRows;
use std::alloc::Global;
use token_texts::{ReadEnd, read_tokens};

/// The rows of an SDF file (IEEE 1497-2001), or the token that cannot stand where it stands, with the cause.
pub fn read(alloc: Global, bytes: &[u8]) -> Result<SdfRows, SdfEnd>
    requires { length bytes.now < 2 ^ 32 }
    // What is answered, the bytes say.
    ensures ok { IfOk result (λ rows. SaysRows bytes.now rows) }
    // A refusal's token is the dead token, with its cause, and the bytes say nothing.
    ensures fault { IfSyntax result (IsFault bytes.now) }
    // What the bytes say is answered, unless memory ran out.
    ensures only { (rows : List SdfRow) → SaysRows bytes.now rows → Gives rows result }
{
    match read_tokens(Reader::new(alloc), bytes) {
        Ok(rows) => Ok(rows),
        Err(ReadEnd::Refused(token, _, cause)) => Err(SdfEnd::Syntax { token, cause }),
        Err(ReadEnd::OutOfMemory) => Err(SdfEnd::OutOfMemory),
    }
}
