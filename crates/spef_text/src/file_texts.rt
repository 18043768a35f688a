//! The text of a token.
ghost use Rattle.std.specs.Prelude.{◌≡◌};
ghost use Rattle.spef_text.specs.Heads.{text_of};

use crate::file::SpefFile;
use crate::starts::token_at;

impl<'a> SpefFile<'a> {
    /// The text of a token, or nothing where the file has no such token. Tokens count from 1.
    pub fn text_of(&self, number: u64) -> &[u8]
        ensures { result.now ≡ text_of self.now number }
    {
        // no token has the number 0: the place is past all of them then
        let place = (number as usize).wrapping_sub(1);
        if place < self.starts.len() {
            token_at(self.bytes, self.starts[place], self.lens[place])
        } else {
            &[]
        }
    }
}
