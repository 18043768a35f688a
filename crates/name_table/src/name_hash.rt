//! How a spelling is hashed.
ghost use Rattle.std.specs.Prelude.{◌≡◌};
ghost use Rattle.name_table.specs.NameHash.{fresh, write, mixed};

use std::hash::{BuildHasherDefault, Hasher};

/// Makes the hasher of a table of names.
pub type NameHash = BuildHasherDefault<NameHasher>;

/// The hash of Fowler, Noll and Vo over 64 bits (FNV-1): the state is multiplied by their prime, and then a byte is joined by
/// exclusive or. Names are short, for which this takes half of the time of the standard hasher.
///
/// The byte that is joined last stands in the last eight bits alone. From them comes the tag by which a table tells its entries
/// apart, and from the others, but for two bits, the place. So names that differ in their last byte, as those of a net's nodes do
/// in the order of the file, have different tags and stand side by side, where a large table need not wait for memory.
#[derive(Clone, Copy)]
pub struct NameHasher {
    state: u64,
}

impl Default for NameHasher {
    ghost is_default = { λ hasher. hasher ≡ fresh };

    fn default() -> NameHasher {
        NameHasher {
            state: 0xcbf2_9ce4_8422_2325,
        }
    }
}

impl Hasher for NameHasher {
    ghost write = { write };

    ghost finish = { λ hasher. mixed hasher.state };

    #[inline(always)]
    fn finish(&self) -> u64 {
        let place = (self.state >> 8).wrapping_mul(0x9e37_79b9_7f4a_7c15) >> 40;
        (place ^ (self.state & 3)) | ((self.state & 0xff) << 24)
    }

    #[inline(always)]
    fn write(&mut self, bytes: &[u8]) {
        let mut state = self.state;
        for byte in bytes {
            state = state.wrapping_mul(0x100_0000_01b3);
            state ^= u64::from(*byte);
        }
        self.state = state;
    }
}
