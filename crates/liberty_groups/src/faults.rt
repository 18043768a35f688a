//! What is answered where a file is no Liberty text.

/// Why a token cannot stand where it stands.
#[derive(Clone, Copy)]
pub enum Cause {
    /// A byte that begins no token, and is no blank.
    BadByte,

    /// The file ends inside the text that begins there.
    OpenText,

    /// The file ends inside the comment that begins there.
    OpenComment,

    /// A token that the grammar does not have there, and for which none of the others holds.
    Unexpected,

    /// The file ends where more has to follow.
    EndInside,

    /// A `{` that would open a group inside sixteen others.
    TooDeep,

    /// The first token is not the word `library`.
    NotLibrary,
}

/// The first token with which no text of the grammar goes on.
#[derive(Clone, Copy)]
pub struct SyntaxFault {
    /// Its number, from 1; at the end of the file one more than there are tokens.
    pub token: u64,

    /// The line of its first byte, from 1; at the end of the file the count of line ends and one.
    pub line: u64,
    pub cause: Cause,
}

/// Why there is no tree.
#[derive(Clone, Copy)]
pub enum ParseEnd {
    Syntax(SyntaxFault),
    OutOfMemory,
}
