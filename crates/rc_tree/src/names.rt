//! Names of nodes.
ghost use Rattle.std.specs.Prelude.{◌≡◌, ◌<◌, ℕ, length, slice_get, slice_index, Some, IfOk};

use crate::numbered::Numbered;
use corner_set::CornerSet;
use edge_io::OutOfMemory;
use name_table::NodeName;
use spef_nets::Net;
use std::alloc::Global;

/// A name of the node of a number, as the section has it.
pub fn section_name<C: CornerSet>(
    alloc: Global,
    section: &Net<C>,
    numbered: &Numbered,
    number: usize,
) -> Result<NodeName, OutOfMemory>
    requires size { length numbered.now.spots.items ≡ length section.now.nodes }
    requires there { (place : ℕ) × (place < length section.now.nodes) × (slice_index numbered.now.spots.items place ≡ number) }
    ensures { IfOk result (λ name. (place : ℕ) × (slice_index numbered.now.spots.items place ≡ number)
        × (slice_get section.now.nodes place ≡ Some name)) }
{
    for place in 0..section.node_count() {
        if numbered.spots[place] as usize == number {
            return section.node_name(alloc, place);
        }
    }
    unreachable!()
}
