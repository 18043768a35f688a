//! The SDF text of rows in memory.
ghost use Rattle.std.specs.Prelude.{◌≡◌, ◌≤◌, ◌++◌, Some, IfOk, OnOk, OnErr};
ghost use Rattle.edge_io.specs.Counts.{Rose};
ghost use Rattle.sdf_writer.specs.SdfText.{sdf_text};

use crate::rows::Rows;
use crate::text::write;
use corner_set::CornerSet;
use edge_io::{Failed, OutOfMemory, Sink, Text};
use std::alloc::Global;

/// A text that grows with what is written to it. A write fails only where there was no memory for it, so its faults are counted as what
/// was denied. The count stands still at 2 ^ 64 - 1.
#[derive(Drop)]
struct TextSink {
    text: Text,
    denied: u64,
}

impl TextSink {
    // Puts the piece behind the text. Where there was no memory for it, the text stays, and what was denied counts one more.
    fn add(&mut self, piece: &[u8]) -> Result<(), OutOfMemory>
        ensures ok { OnOk result (self.new.text ≡ self.old.text ++ piece.now) }
        ensures count { OnOk result (self.new.denied ≡ self.old.denied) }
        ensures unchanged { OnErr result (self.new.text ≡ self.old.text) }
        ensures later { self.old.denied ≤ self.new.denied }
        ensures denied { OnErr result (Rose self.old.denied self.new.denied) }
    {
        match self.text.push_all(piece) {
            Ok(()) => Ok(()),
            Err(OutOfMemory) => {
                self.denied = self.denied.saturating_add(1);
                Err(OutOfMemory)
            }
        }
    }
}

impl Sink for TextSink {
    ghost written = { λ sink. Some sink.text };

    ghost faults = { λ sink. sink.denied };

    fn write(&mut self, piece: &[u8]) -> Result<usize, Failed> {
        if piece.is_empty() {
            return Ok(0);
        }
        match self.add(piece) {
            Ok(()) => Ok(piece.len()),
            Err(OutOfMemory) => Err(Failed),
        }
    }
}

/// The SDF text of rows, in memory.
pub fn sdf_text_of<C: CornerSet>(alloc: Global, rows: &Rows<C>) -> Result<Text, OutOfMemory>
    ensures { IfOk result (λ text. text ≡ sdf_text rows.now) }
{
    let mut sink = TextSink {
        text: Text::new(alloc),
        denied: 0,
    };
    match write(rows, &mut sink) {
        Ok(()) => Ok(sink.text),
        Err(Failed) => Err(OutOfMemory),
    }
}
