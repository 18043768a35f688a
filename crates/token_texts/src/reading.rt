//! One loop over the tokens of a text.
ghost use Rattle.std.specs.Prelude.{◌≡◌, true, ℕ, ◌+◌, ◌<◌, ◌^◌, ◌∷◌, [], ◌++◌, List, length, IfOk};
ghost use Rattle.token_texts.specs.Cuts.{Part, gap, IsWithin, HasGapBehind};
ghost use Rattle.token_texts.specs.Readings.{IsNext, Follows, OnTaken, Finishes, MakesParts, StopsParts, IfRefused};
ghost use Rattle.token_texts.specs.declared.cuts.Cut.{Cut};

use crate::cuts::{Cut, Front};
use edge_io::OutOfMemory;

/// Why a text is not read.
#[derive(Drop)]
pub enum ReadEnd<C> {
    /// The token of this number, from 1, which begins behind so many bytes, cannot stand where it stands. One past the last, the
    /// text cannot end there.
    Refused(u64, usize, C),
    OutOfMemory,
}

/// A grammar over tokens, as a machine that takes one at a time.
pub trait TokenReader: Drop {
    type Kind: Copy;

    type Value;

    type Cause: Drop;

    /// What stands at the front of a first byte and those behind it.
    ghost cut_at: { ℕ → List ℕ → Cut Self.Kind };

    /// What is so of the machine where the next token has this number.
    ghost IsSound: { ℕ → Self → Type 0 };

    /// These parts lead to the machine.
    ghost Leads: { List (Part Self.Kind) → Self → Type 0 };

    /// These parts are refused at the token of this number.
    ghost Stops: { List (Part Self.Kind) → ℕ → Self.Cause → Type 0 };

    /// These parts say the value.
    ghost Makes: { List (Part Self.Kind) → Self.Value → Type 0 };

    fn cut(bytes: &[u8], first: u8, rest: &[u8]) -> Cut<Self::Kind>
        requires parts { bytes.now ≡ first ∷ rest.now }
        requires bytes { length bytes.now < 2 ^ 32 }
        ensures value { result ≡ cut_at first rest.now }
        ensures within { IsWithin (length bytes.now) result };

    /// What [`cut`](TokenReader::cut) tells, and whether a byte stands behind it that is passed over by itself, as a blank. A reader that
    /// sees such a byte without a further look tells so: it takes no turn of its own then.
    #[inline(always)]
    fn front(bytes: &[u8], first: u8, rest: &[u8]) -> Front<Self::Kind>
        requires parts { bytes.now ≡ first ∷ rest.now }
        requires bytes { length bytes.now < 2 ^ 32 }
        ensures value { result.cut ≡ cut_at first rest.now }
        ensures within { IsWithin (length bytes.now) result.cut }
        ensures gap { result.has_gap ≡ true → HasGapBehind cut_at bytes.now result.cut }
    {
        Front {
            cut: Self::cut(bytes, first, rest),
            has_gap: false,
        }
    }

    /// Goes on behind bytes that are passed over, as a blank or a comment.
    fn pass(&mut self, bytes: &[u8])
        ensures sound { (number : ℕ) → IsSound number self.old → IsSound number self.new }
        ensures state { (before : List (Part Self.Kind)) → Leads before self.old → Leads (before ++ gap bytes.now ∷ []) self.new };

    /// Takes a token, or says why it cannot stand where it stands.
    fn take(
        &mut self,
        number: u64,
        start: usize,
        kind: Self::Kind,
        bytes: &[u8],
    ) -> Result<Option<Self::Cause>, OutOfMemory>
        requires number { number < 2 ^ 32 }
        requires bytes { start + length bytes.now < 2 ^ 32 }
        requires sound { IsSound number self.old }
        ensures sound { OnTaken result (IsSound (number + 1) self.new) }
        ensures state { (before : List (Part Self.Kind)) → IsNext before number start → Leads before self.old
            → IfOk result (Follows Leads Stops before number kind bytes.now self.new) };

    /// What the text says, or why it cannot end here.
    fn finish(self) -> Result<Result<Self::Value, Self::Cause>, OutOfMemory>
        requires sound { (number : ℕ) × IsSound number self }
        ensures state { (before : List (Part Self.Kind)) → Leads before self → IfOk result (Finishes Makes Stops before) };

    /// Each cut takes a byte, and none past the end.
    ghost within: { (first : ℕ) (rest : List ℕ) → IsWithin (length rest + 1) (cut_at first rest) };
}

/// Reads a text.
pub fn read_tokens<R: TokenReader>(first: R, bytes: &[u8]) -> Result<R::Value, ReadEnd<R::Cause>>
    requires bytes { length bytes.now < 2 ^ 32 }
    requires sound { R.IsSound 1 first }
    requires leads { R.Leads [] first }
    ensures ok { IfOk result (λ value. MakesParts R.cut_at R.Makes bytes.now value) }
    ensures fault { IfRefused result (StopsParts R.cut_at R.Stops bytes.now) }
{
    let mut reader = first;
    let mut number = 1;
    let mut start = 0;
    let mut rest = bytes;
    while let [byte, behind @ ..] = rest {
        let front = R::front(rest, *byte, behind);
        match front.cut {
            Cut::Skip(count) => {
                let (gap, others) = rest.split_at(count);
                reader.pass(gap);
                start += count;
                rest = others;
            }
            Cut::Take(count, kind) => {
                let (token, others) = rest.split_at(count);
                match reader.take(number, start, kind, token) {
                    Ok(None) => {}
                    Ok(Some(cause)) => return Err(ReadEnd::Refused(number, start, cause)),
                    Err(_) => return Err(ReadEnd::OutOfMemory),
                }
                number += 1;
                start += count;
                rest = others;
                if front.has_gap {
                    let (gap, further) = rest.split_at(1);
                    reader.pass(gap);
                    start += 1;
                    rest = further;
                }
            }
        }
    }
    match reader.finish() {
        Ok(Ok(value)) => Ok(value),
        Ok(Err(cause)) => Err(ReadEnd::Refused(number, start, cause)),
        Err(_) => Err(ReadEnd::OutOfMemory),
    }
}
