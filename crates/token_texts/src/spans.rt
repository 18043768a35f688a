//! Pieces of a file's bytes, by their place.
ghost use Rattle.std.specs.Prelude.{◌≡◌};
ghost use Rattle.token_texts.specs.Spans.{text_at};

/// A piece of a file: the place of its first byte, and how many bytes it has.
#[derive(Clone, Copy)]
pub struct Span {
    pub start: u32,
    pub len: u32,
}

impl Span {
    /// The bytes of the piece, or as many as the file has there.
    #[inline]
    pub fn of(self, bytes: &[u8]) -> &[u8]
        ensures { result.now ≡ text_at bytes.now self }
    {
        let start = (self.start as usize).min(bytes.len());
        let after = bytes.split_at(start).1;
        let len = (self.len as usize).min(after.len());
        after.split_at(len).0
    }
}
