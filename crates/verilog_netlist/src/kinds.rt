//! What a token is.

/// What a token is.
#[derive(Clone, Copy)]
pub enum Kind {
    /// An identifier that is no reserved word, or an escaped identifier.
    Name,

    /// Decimal digits, with their value; a value past the largest bound counts as one more than that.
    Number(u32),

    /// A constant with its width, as `4'b01xz`.
    Constant,

    /// The reserved words of the grammar.
    Module,
    EndModule,
    Input,
    Output,
    Wire,

    /// A reserved word that the grammar has nowhere: what it begins is not structural.
    NotStructural,

    /// The marks.
    LeftParen,
    RightParen,
    LeftBracket,
    RightBracket,
    LeftBrace,
    RightBrace,
    Dot,
    Comma,
    Semicolon,
    Colon,

    /// A byte that begins no token, or a comment or an attribute that does not end.
    Bad,
}
