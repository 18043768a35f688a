ghost use Rattle.std.specs.Prelude.{◌≡◌, ℕ, ◌+◌, ◌<◌, ◌≤◌, ◌^◌, ◌⊎◌, [], length, Err, IfOk};
ghost use Rattle.edge_io.specs.Counts.{Rose, RoseBy};
ghost use Rattle.edge_io.specs.Holding.{Held, TellsMissing, HoldsFile, HoldsMore, Took};
ghost use Rattle.edge_io.specs.Taking.{IsAllLeft, LeftMore, Moves};
ghost use Rattle.edge_io.specs.declared.reading.ReadEnd.TheVariants.{ReadFault, TooLong, OutOfMemory};

use crate::failures::{Failed, OutOfMemory};
use crate::shelves::Shelf;
use crate::texts::Text;
use std::alloc::{AllocError, Global};

/// Why a file was not read to its end.
#[derive(Clone, Copy)]
pub enum ReadEnd {
    /// The outside failed, or there is no file of that name.
    ReadFault,
    /// The file has more bytes than the limit.
    TooLong,
    /// The memory for its bytes was not there.
    OutOfMemory,
}

impl From<Failed> for ReadEnd {
    ghost from_gives = { λ _ end. end ≡ ReadFault };

    fn from(_failed: Failed) -> ReadEnd {
        ReadEnd::ReadFault
    }
}

impl From<OutOfMemory> for ReadEnd {
    ghost from_gives = { λ _ end. end ≡ OutOfMemory };

    fn from(_error: OutOfMemory) -> ReadEnd {
        ReadEnd::OutOfMemory
    }
}

impl From<AllocError> for ReadEnd {
    ghost from_gives = { λ _ end. end ≡ OutOfMemory };

    fn from(_error: AllocError) -> ReadEnd {
        ReadEnd::OutOfMemory
    }
}

/// How many bytes are asked for in one call, at most.
const PIECE_BYTES: usize = 131072;

/// Reads a whole file of at most `limit` bytes.
///
/// The file is opened once, and of a longer one just `limit + 1` bytes are taken. Each read but the last
/// takes at least one byte, so at most `limit + 1` reads are made.
pub fn read_file<H: Shelf>(
    alloc: Global,
    shelf: &mut H,
    name: &Text,
    limit: usize,
) -> Result<Text, ReadEnd>
    requires { limit < 2 ^ 40 }
    ensures whole { IfOk result (λ text. HoldsFile (H.held shelf.old) name.now text) }
    ensures short { IfOk result (λ text. length text ≤ limit) }
    ensures long { result ≡ Err ReadEnd.TooLong → HoldsMore (H.held shelf.old) name.now limit }
    ensures taken { result ≡ Err ReadEnd.TooLong → Took (H.held shelf.old) name.now (limit + 1) (H.left shelf.new) }
    ensures fault { result ≡ Err ReadEnd.ReadFault
        → Rose (H.faults shelf.old) (H.faults shelf.new) ⊎ TellsMissing (H.held shelf.old) name.now }
    ensures later { H.faults shelf.old ≤ H.faults shelf.new }
    ensures opens { RoseBy 1 (H.opens shelf.old) (H.opens shelf.new) }
    ensures reads { H.reads shelf.new ≤ H.reads shelf.old + (limit + 1) }
    ensures held { H.held shelf.new ≡ H.held shelf.old }
{
    shelf.open(name)?;
    let text = read_open(alloc, shelf, limit)?;
    Ok(text)
}

/// Reads what is left of the open file, if that is at most `limit` bytes.
fn read_open<H: Shelf>(alloc: Global, shelf: &mut H, limit: usize) -> Result<Text, ReadEnd>
    requires { limit < 2 ^ 40 }
    ensures whole { IfOk result (λ text. IsAllLeft (H.left shelf.old) text) }
    ensures short { IfOk result (λ text. length text ≤ limit) }
    ensures long { result ≡ Err ReadEnd.TooLong → LeftMore (H.left shelf.old) limit (H.left shelf.new) }
    ensures fault { result ≡ Err ReadEnd.ReadFault → Rose (H.faults shelf.old) (H.faults shelf.new) }
    ensures later { H.faults shelf.old ≤ H.faults shelf.new }
    ensures opens { H.opens shelf.new ≡ H.opens shelf.old }
    ensures reads { H.reads shelf.new ≤ H.reads shelf.old + (limit + 1) }
    ensures held { H.held shelf.new ≡ H.held shelf.old }
{
    let mut room = Vec::new(alloc);
    room.resize(PIECE_BYTES, 0u8)?;
    let piece = room.as_mut_slice();
    let mut text = Text::new(alloc);
    'taking: while text.len() <= limit {
        let wanted = PIECE_BYTES.min(limit + 1 - text.len());
        let count = take_piece(shelf, &mut piece[..wanted], &mut text)?;
        if count == 0 {
            return Ok(text);
        }
    }
    Err(ReadEnd::TooLong)
}

/// Reads the open file once, with room for a piece, and puts what comes behind the text. It answers how many bytes came, of which
/// there are none only at the end.
fn take_piece<H: Shelf>(shelf: &mut H, piece: &mut [u8], text: &mut Text) -> Result<usize, ReadEnd>
    requires { 0 < length piece.old }
    ensures count { IfOk result (λ count. length text.new ≡ length text.old + count) }
    ensures bound { IfOk result (λ count. count ≤ length piece.old) }
    ensures moved { IfOk result (λ count. Moves (H.left shelf.old) text.old (H.left shelf.new) text.new) }
    ensures ends { IfOk result (λ count. count ≡ 0 → IsAllLeft (H.left shelf.old) []) }
    ensures long { result ≡ Err ReadEnd.TooLong → ⊥ }
    ensures fault { result ≡ Err ReadEnd.ReadFault → Rose (H.faults shelf.old) (H.faults shelf.new) }
    ensures later { H.faults shelf.old ≤ H.faults shelf.new }
    ensures opens { H.opens shelf.new ≡ H.opens shelf.old }
    ensures reads { H.reads shelf.new ≤ H.reads shelf.old + 1 }
    ensures held { H.held shelf.new ≡ H.held shelf.old }
{
    let count = shelf.read(piece)?;
    text.push_all(&piece[..count])?;
    Ok(count)
}
