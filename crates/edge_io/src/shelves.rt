ghost use Rattle.std.specs.Prelude.{◌≡◌, ℕ, ◌+◌, ◌≤◌, ◌⊎◌, List, length, Option, is_some, Ok, IfOk, OnOk, OnErr};
ghost use Rattle.edge_io.specs.Counts.{Rose, RoseBy};
ghost use Rattle.edge_io.specs.Holding.{Held, TellsMissing, Opens, ReadsFront};

use crate::failures::Failed;
use crate::texts::Text;

/// Where files are held by their names, one of them open at a time.
///
/// A shelf may tell what it holds, as one in memory does, or not, as a file system does. Whether it
/// tells never changes, and neither call changes what is held. Before the first `open` nothing is left.
pub trait Shelf {
    // What is held, by name.
    ghost held: { Self → Option Held };

    // What is left to read of the open file.
    ghost left: { Self → Option (List ℕ) };

    // How many calls ended in a fault of the outside; it stands still at 2 ^ 64 - 1.
    ghost faults: { Self → ℕ };

    // How many times a file was opened, or tried to; it stands still at 2 ^ 64 - 1.
    ghost opens: { Self → ℕ };

    // How many calls of `read` were made; it stands still at 2 ^ 64 - 1.
    ghost reads: { Self → ℕ };

    /// Opens the file of that name in place of the one that is open.
    ///
    /// It fails where the outside failed, which raises the count of faults, or where the shelf tells
    /// that it does not hold the name.
    fn open(&mut self, name: &Text) -> Result<(), Failed>
        ensures held { held self.new ≡ held self.old }
        ensures told { is_some (left self.new) ≡ is_some (left self.old) }
        ensures opens { RoseBy 1 (opens self.old) (opens self.new) }
        ensures reads { reads self.new ≡ reads self.old }
        ensures later { faults self.old ≤ faults self.new }
        ensures left { OnOk result (Opens (held self.old) name.now (left self.new)) }
        ensures unchanged { OnErr result (left self.new ≡ left self.old) }
        ensures cause { OnErr result (Rose (faults self.old) (faults self.new) ⊎ TellsMissing (held self.old) name.now) };

    /// Puts bytes of the open file at the front of the piece, and answers how many: at least one,
    /// or none at the end of the file or where the piece is empty.
    fn read(&mut self, piece: &mut [u8]) -> Result<usize, Failed>
        ensures held { held self.new ≡ held self.old }
        ensures opens { opens self.new ≡ opens self.old }
        ensures reads { RoseBy 1 (reads self.old) (reads self.new) }
        ensures later { faults self.old ≤ faults self.new }
        ensures bound { IfOk result (λ count. count ≤ length piece.new) }
        ensures left { IfOk result (λ count. ReadsFront count piece.new (left self.old) (left self.new)) }
        ensures empty { length piece.old ≡ 0 → result ≡ Ok 0 }
        ensures unchanged { OnErr result (left self.new ≡ left self.old) }
        ensures cause { OnErr result (Rose (faults self.old) (faults self.new)) };
}
