//! What a user chooses for a run beside its files.

/// What a net is that has a driver and a sink but no section in the SPEF file.
#[derive(Clone, Copy)]
pub enum Missing {
    /// It is refused.
    Refuse,
    /// It has neither resistance nor capacitance of its own: its load is that of its sinks, and its Elmore sums are 0.
    Zero,
}

/// What a lookup in a table does where a quantity is past an axis: below its first point or above its last. An axis of one point has no
/// ends to pass.
#[derive(Clone, Copy)]
pub enum Beyond {
    /// It is refused.
    Refuse,
    /// It takes the end that is passed in place of the quantity.
    Edge,
    /// It goes on in a straight line through the first two points, or the last two.
    Extend,
}

/// What a wire does to a slew.
#[derive(Clone, Copy)]
pub enum WireSlew {
    /// Nothing.
    Same,
    /// It joins the wire's own slew to it: the root of the sum of the squares of both (root sum square).
    Rss,
}
