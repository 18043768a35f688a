//! The lists that the building of a tree needs besides the tree's own.

use crate::found::Found;
use crate::layout::TreePlaces;
use crate::numbered::Numbered;
use crate::numbering::Ends;
use crate::threads::Threads;
use std::alloc::Global;

/// The lists of the building of a tree. They are filled anew for each net, so that nets one after another share their room.
#[derive(Drop)]
pub struct Workspace {
    pub(crate) numbered: Numbered,
    pub(crate) lists: SearchLists,
}

impl Workspace {
    /// It takes no memory.
    pub fn new(alloc: Global) -> Workspace {
        Workspace {
            numbered: Numbered {
                spots: Vec::new(alloc),
                count: 0,
            },
            lists: SearchLists {
                ends: Ends {
                    froms: Vec::new(alloc),
                    tos: Vec::new(alloc),
                },
                at_froms: no_threads(alloc),
                at_tos: no_threads(alloc),
                found: Found {
                    order: Vec::new(alloc),
                    parents: Vec::new(alloc),
                    vias: Vec::new(alloc),
                    numbers: Vec::new(alloc),
                    links: Vec::new(alloc),
                },
                places: TreePlaces {
                    nodes: Vec::new(alloc),
                    sinks: Vec::new(alloc),
                },
            },
        }
    }
}

fn no_threads(alloc: Global) -> Threads {
    Threads {
        heads: Vec::new(alloc),
        nexts: Vec::new(alloc),
    }
}

/// The lists of a search over the resistors of a net.
#[derive(Drop)]
pub struct SearchLists {
    /// The ends of the resistors.
    pub ends: Ends,

    /// The resistors at each node, by the one end of each and by the other.
    pub at_froms: Threads,
    pub at_tos: Threads,

    /// What the search has found.
    pub found: Found,

    /// Where the nodes of the section and the sinks stand in the tree.
    pub places: TreePlaces,
}
