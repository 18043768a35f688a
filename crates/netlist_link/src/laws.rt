//! The law of flat netlists.
ghost use Rattle.std.specs.Prelude.{◌≡◌, ℕ, List};
ghost use Rattle.name_table.specs.Names.{AreDistinct};
ghost use Rattle.cell_models.specs.NamedSets.{NamedCells, set_names};
ghost use Rattle.verilog_netlist.specs.NetModules.{NetModule};
ghost use Rattle.hierarchy.specs.UseLaws.{NamesDiffer};
ghost use Rattle.netlist_link.specs.FlatNetlist.{FlatNetlist};
ghost use Rattle.netlist_link.specs.FlatDesigns.{IsFlatDesign, IsFlatEnd, IsSameLinkEnd};
ghost use Rattle.netlist_link.specs.declared.ends.LinkEnd.{LinkEnd};
ghost use Rattle.netlist_link.specs.declared.ends.LinkEnd.TheVariants.{OutOfMemory};

/// The law of flat netlists, which its contract states: where the names of modules differ, and those of cells, a design has one flat
/// netlist at most; where it has one, it is refused for want of memory alone; and it is refused for one reason. It does nothing when it
/// is called.
pub fn one_flat_design()
    ensures netlist { (modules : List NetModule) (name : List ℕ) (cells : List NamedCells) (some other : FlatNetlist)
        → NamesDiffer modules → AreDistinct (set_names cells) → IsFlatDesign modules name cells some
        → IsFlatDesign modules name cells other → some ≡ other }
    ensures either { (modules : List NetModule) (name : List ℕ) (cells : List NamedCells) (netlist : FlatNetlist) (end : LinkEnd)
        → NamesDiffer modules → AreDistinct (set_names cells) → IsFlatDesign modules name cells netlist
        → IsFlatEnd modules name cells end → end ≡ OutOfMemory }
    ensures ends { (modules : List NetModule) (name : List ℕ) (cells : List NamedCells) (some other : LinkEnd)
        → NamesDiffer modules → AreDistinct (set_names cells) → IsFlatEnd modules name cells some
        → IsFlatEnd modules name cells other → IsSameLinkEnd some other }
{}
