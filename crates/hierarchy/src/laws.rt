//! The laws of what the contracts speak of.
ghost use Rattle.std.specs.Prelude.{◌≡◌, ℕ, List};
ghost use Rattle.verilog_netlist.specs.NetModules.{NetModule};
ghost use Rattle.hierarchy.specs.Uses.{AreCellsUsed, IsUseEnd};
ghost use Rattle.hierarchy.specs.UseLaws.{NamesDiffer, IsSameEnd};
ghost use Rattle.hierarchy.specs.declared.uses.UseEnd.{UseEnd};
ghost use Rattle.hierarchy.specs.declared.uses.UseEnd.TheVariants.{OutOfMemory};

/// The law of used cells, which its contract states: where the names of modules differ, a design has one list of cells at most; where
/// it has one, it is refused for want of memory alone; and it is refused for one reason, but that of several modules which contain
/// themselves one is named. It does nothing when it is called.
pub fn one_use()
    ensures cells { (modules : List NetModule) (name : List ℕ) (some other : List (List ℕ)) → NamesDiffer modules
        → AreCellsUsed modules name some → AreCellsUsed modules name other → some ≡ other }
    ensures either { (modules : List NetModule) (name : List ℕ) (cells : List (List ℕ)) (end : UseEnd) → NamesDiffer modules
        → AreCellsUsed modules name cells → IsUseEnd modules name end → end ≡ OutOfMemory }
    ensures ends { (modules : List NetModule) (name : List ℕ) (some other : UseEnd) → NamesDiffer modules
        → IsUseEnd modules name some → IsUseEnd modules name other → IsSameEnd some other }
{}
