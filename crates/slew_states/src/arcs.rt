//! Arcs between nets.

use cell_models::ArcKind;

/// An arc of an instance between the nets of its pins.
#[derive(Clone, Copy)]
pub struct FlatArc {
    /// The net of the related pin. A pin that is tied or unconnected has none, and so has one on a net without a driver.
    pub source: Option<usize>,

    /// The net of the output pin. A pin that is not loaded has none.
    pub target: Option<usize>,

    /// Which edges of the related pin an edge of the output pin follows.
    pub kind: ArcKind,

    /// Whether the output pin has a rise by this arc.
    pub rise: bool,

    /// Whether it has a fall.
    pub fall: bool,
}

/// What drives a net.
#[derive(Clone, Copy)]
pub enum Driver {
    /// Nothing does.
    Nothing,
    /// An input port of the top module.
    Port,
    /// An output pin, by the arcs that end on the net.
    Pin,
}
