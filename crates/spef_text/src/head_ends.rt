//! Why a file has no head.

/// Why the head of a file is refused. Tokens count from 1.
#[derive(Drop)]
pub enum HeadEnd {
    /// A unit that counts is bad, by its number's token, or is missing while the file has a net, with the token 0.
    BadUnit { token: u64 },

    /// An index stands twice in the name map, by the token where it stands again.
    RepeatedIndex { token: u64 },

    /// There was no memory for the head.
    OutOfMemory,
}
