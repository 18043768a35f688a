//! Names as tables keep them.
use std::hash::{Hash, Hasher};

/// The text of a name, as a table keeps it. A hash takes it in one piece, and not each byte by itself.
#[derive(Clone, Copy, PartialEq, Eq)]
pub struct NameText<'a> {
    pub bytes: &'a [u8],
}

impl<'a> Hash for NameText<'a> {
    ghost use Rattle.std.specs.Prelude.{[], ◌∷◌};
    ghost use Rattle.std.specs.Hash.{on_Alike, same_Alike};
    ghost use Rattle.std.proofs.lemmas.Slice.Eq.{bytes_eq-Decides};

    ghost hash_input = { λ text. text.bytes.now ∷ [] };

    ghost respects_eq = { (on_Alike (λ text. text.bytes.now) (same_Alike (λ bytes. bytes ∷ []) bytes_eq-Decides)).fed };

    #[inline]
    fn hash<H: Hasher>(&self, state: &mut H) {
        state.write(self.bytes);
    }
}
