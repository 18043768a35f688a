//! The laws of what the contracts speak of.
ghost use Rattle.std.specs.Prelude.{◌≡◌, ℕ, List};
ghost use Rattle.verilog_netlist.specs.Netlists.{SaysNetlist, LeavesNetlist};
ghost use Rattle.verilog_netlist.specs.Faults.{IsFirstFault};
ghost use Rattle.verilog_netlist.specs.declared.entries.Entry.{Entry};
ghost use Rattle.verilog_netlist.specs.declared.faults.FirstFault.{FirstFault};

/// The law of netlists, which its contract states: given bytes say one list of entries at most. It does nothing when it is
/// called.
pub fn one_netlist()
    ensures law { (bytes : List ℕ) (some other : List Entry) → SaysNetlist bytes some → SaysNetlist bytes other → some ≡ other }
{}

/// The law of refusals, which its contract states: given bytes leave the grammar with one token at most. It does nothing when it
/// is called.
pub fn one_dead_token()
    ensures law { (bytes : List ℕ) (some other : ℕ) → LeavesNetlist bytes some → LeavesNetlist bytes other → some ≡ other }
{}

/// The law of faults, which its contract states: the names and ranges of a netlist have one first fault at most. It does nothing
/// when it is called.
pub fn one_first_fault()
    ensures law { (bytes : List ℕ) (entries : List Entry) (some other : FirstFault)
        → IsFirstFault bytes entries some → IsFirstFault bytes entries other → some ≡ other }
{}
