//! Texts in quotes.
ghost use Rattle.std.specs.Prelude.{◌≡◌, ◌+◌, ◌^◌, ◌<◌, false, length};
ghost use Rattle.std.specs.Option.{IfSome};
ghost use Rattle.token_texts.specs.Cuts.{IsWithin};
ghost use Rattle.token_texts.specs.Quoted.{takes, quote_end, quoted_cut};

use crate::cuts::Cut;

/// What a backslash in a text does.
#[derive(Clone, Copy)]
pub enum Escape {
    /// It takes the next byte with it, whatever that is, unless it is itself taken.
    NextByte,

    /// It keeps a quote right behind it from ending the text, whatever stands before it.
    NextQuote,
}

/// Whether a byte takes the next one with it, where the one before took it, or not.
#[inline]
pub fn takes(escape: Escape, byte: u8, is_taken: bool) -> bool
    ensures { result ≡ takes escape byte is_taken }
{
    match escape {
        Escape::NextByte => byte == b'\\' && !is_taken,
        Escape::NextQuote => byte == b'\\',
    }
}

/// Behind a quote: the place of the quote that ends the text.
#[inline]
pub fn quote_end(escape: Escape, rest: &[u8]) -> Option<usize>
    ensures value { result ≡ quote_end escape false rest.now }
    ensures within { IfSome result (λ place. place < length rest.now) }
{
    let mut is_taken = false;
    let mut place = 0;
    while place < rest.len() {
        let byte = rest[place];
        if byte == b'"' && !is_taken {
            return Some(place);
        }
        is_taken = takes(escape, byte, is_taken);
        place += 1;
    }
    None
}

/// Behind a quote: a text of the first kind, or, where no quote ends it, a token of the second, which takes all.
#[inline]
pub fn quoted_cut<K: Copy>(escape: Escape, quoted_kind: K, open_kind: K, rest: &[u8]) -> Cut<K>
    requires { length rest.now < 2 ^ 32 }
    ensures value { result ≡ quoted_cut escape quoted_kind open_kind rest.now }
    ensures within { IsWithin (length rest.now + 1) result }
{
    match quote_end(escape, rest) {
        Some(place) => Cut::Take(place + 2, quoted_kind),
        None => Cut::Take(rest.len() + 1, open_kind),
    }
}
