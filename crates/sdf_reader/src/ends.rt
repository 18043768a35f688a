//! What is answered where a file is no SDF text.

/// Why a token cannot stand where it stands.
#[derive(Clone, Copy)]
pub enum SdfCause {
    /// A byte that begins no token, and is no blank: a control byte, or a backslash at the end of the file.
    BadByte,

    /// The file ends inside the text that begins there.
    OpenText,

    /// The file ends inside the comment that begins there.
    OpenComment,

    /// A token that the grammar does not have there, and for which none of the others holds.
    Unexpected,

    /// The file ends where more has to follow.
    EndInside,

    /// A word where a number may stand, that is none.
    BadNumber,
}

/// Why there are no rows.
#[derive(Clone, Copy)]
pub enum SdfEnd {
    /// The first token with which no text of the grammar goes on, by its number from 1, comments and blanks left out. At the
    /// end of the file it is one more than there are tokens.
    Syntax { token: u64, cause: SdfCause },

    /// There was no memory for what the file says.
    OutOfMemory,
}
