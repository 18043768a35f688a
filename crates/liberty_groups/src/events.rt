//! What tokens add to the statement that has begun, and to the tree.
use edge_io::Text;

/// What a token adds.
#[derive(Drop)]
pub enum Event {
    /// An argument.
    Part(Text),

    /// A value: its words and texts, joined by one space.
    Piece(Text),

    /// The statement was an attribute.
    Attribute,

    /// The statement opens the body of the library, or of a group in the one that is open.
    OpenLibrary,
    Open,

    /// The body of the innermost group ends.
    Close,
}
