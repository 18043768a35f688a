//! What texts in tokens are made of: bytes of a file by their place, blanks, comments, texts in quotes, runs of bytes of one class, and
//! the pieces of a list, with the lemmas that a reader of such texts is proved by.
//!
//! What a new grammar writes: what stands at the front of some bytes, with the kinds of its tokens; its modes, and what each token
//! does in them, as a `TokenReader`, which `read_tokens` runs over the bytes; and its rules, as a relation over numbered tokens.
//! What it proves: each text of the grammar is taken (Taking), what has been taken is so much of a text (Meaning), and from each
//! mode some tokens complete a text (Living). The laws of `token_fronts` make of these what is answered for any bytes.
#![tactic(auto)]

mod blanks;
mod comments;
mod cuts;
mod pieces;
mod quoted;
mod reading;
mod runs;
mod spans;

pub use blanks::{Blank, begins_with, is_blank};
pub use comments::{comment_at, comment_cut, line_length, pair_place};
pub use cuts::{Cut, Front};
pub use pieces::first_piece;
pub use quoted::{Escape, quote_end, quoted_cut, takes};
pub use reading::{ReadEnd, TokenReader, read_tokens};
pub use runs::{ByteClass, escaped_run_length, run_length};
pub use spans::Span;
