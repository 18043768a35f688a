//! What stands at the front of some bytes.

/// What stands at the front of some bytes: so many that are passed over, or a token of so many, and what it is.
#[derive(Clone, Copy)]
pub enum Cut<K> {
    Skip(usize),
    Take(usize, K),
}

/// The same, and whether a byte stands behind it that is passed over by itself. Where that is not told, one may stand there too.
#[derive(Clone, Copy)]
pub struct Front<K> {
    pub cut: Cut<K>,
    pub has_gap: bool,
}
