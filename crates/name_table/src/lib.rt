//! Names: numbered texts, and how a name is spelled in SPEF (IEEE 1481-1999) and in SDF (IEEE 1497-2001).
//! A table gives each text one number. A name of SPEF becomes the text that it stands for and its spelling
//! in SDF; a name that is read from SDF becomes its canonical spelling.
#![tactic(auto)]

mod laws;
mod name_hash;
mod names;
mod node_keys;
mod sdf_names;
mod spef_names;
mod written_names;

pub use laws::{one_cut, one_reading, well_spelled_stays};
pub use name_hash::{NameHash, NameHasher};
pub use names::{NameId, Names};
pub use node_keys::NodeKey;
pub use sdf_names::{canonical_sdf, escape_sdf};
pub use spef_names::{NodeName, SpefMarks, cut_node, read_spef_node};
pub use written_names::{WrittenName, written_halves, written_name, written_whole};
