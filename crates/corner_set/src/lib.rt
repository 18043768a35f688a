//! Corners of a timing run, and values kept for each of them.
//! A corner set names its corners by an index and numbers them from 0.
//! A grid keeps one value for each row and corner in one flat vector.
#![tactic(auto)]

mod choices;
mod corner;
mod grid;
mod pick;
mod triple;

pub use choices::{Beyond, Missing, WireSlew};
pub use corner::{CornerSet, Single, corner_at, first_corner};
pub use grid::Grid;
pub use pick::Pick;
pub use triple::Triple;
