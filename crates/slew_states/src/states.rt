//! The state of a pin or a net.

use cell_models::Edge;

/// The state of a pin or a net at an edge.
#[derive(Clone, Copy)]
pub enum PinState {
    /// No edge comes there.
    Absent,
    /// The edge comes with this slew, in attoseconds, at most 10^12.
    Known(u64),
    /// A look-up or a wire on the way refused.
    Stuck,
}

/// The states at both edges.
#[derive(Clone, Copy)]
pub struct EdgeStates {
    pub rise: PinState,
    pub fall: PinState,
}
