//! Arcs of instances.

/// An arc of an instance, by the number of the instance and the place of the arc in its cell. Both count from 0.
#[derive(Clone, Copy)]
pub struct ArcAt {
    pub instance: usize,
    pub arc: usize,
}
