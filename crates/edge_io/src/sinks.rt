ghost use Rattle.std.specs.Prelude.{◌≡◌, ℕ, ◌≤◌, ◌<◌, List, length, take, Option, Ok, IfOk, OnErr};
ghost use Rattle.edge_io.specs.Counts.{Rose};
ghost use Rattle.edge_io.specs.Told.{appended};

use crate::failures::Failed;

/// Where bytes are written to, one after another.
///
/// A sink may tell what was written to it, as one in memory does, or not, as a stream does.
pub trait Sink {
    // What was written.
    ghost written: { Self → Option (List ℕ) };

    // How many calls ended in a fault of the outside; it stands still at 2 ^ 64 - 1.
    ghost faults: { Self → ℕ };

    /// Takes bytes of the front of the piece, and answers how many: at least one, or none where the
    /// piece is empty. Where it fails nothing was taken, and the count of faults rose.
    fn write(&mut self, piece: &[u8]) -> Result<usize, Failed>
        ensures bound { IfOk result (λ count. count ≤ length piece.now) }
        ensures some { IfOk result (λ count. 0 < length piece.now → 0 < count) }
        ensures empty { length piece.now ≡ 0 → result ≡ Ok 0 }
        ensures written { IfOk result (λ count. written self.new ≡ appended (written self.old) (take count piece.now)) }
        ensures unchanged { OnErr result (written self.new ≡ written self.old) }
        ensures later { faults self.old ≤ faults self.new }
        ensures cause { OnErr result (Rose (faults self.old) (faults self.new)) };
}
