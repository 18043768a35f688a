//! The laws of what the contracts speak of.
ghost use Rattle.std.specs.Prelude.{◌≡◌, ◌<◌, ℕ, List};
ghost use Rattle.name_table.specs.Names.{AreDistinct};
ghost use Rattle.cell_models.specs.NamedSets.{NamedCells};
ghost use Rattle.verilog_netlist.specs.NetModules.{NetModule};
ghost use Rattle.netlist_link.specs.FlatDesigns.{IsFlatDesign};
ghost use Rattle.netlist_link.specs.FlatNetlist.{FlatNetlist};
ghost use Rattle.spef_nets.specs.NetElements.{net_names};
ghost use Rattle.net_delays.specs.NetTimes.{NetTimes};
ghost use Rattle.net_parasitics.specs.Inputs.{Inputs, AreNamedApart};
ghost use Rattle.net_parasitics.specs.NetTrees.{AreNetDelays, IsParasiticsEnd};
ghost use Rattle.net_parasitics.specs.OneAnswer.{IsSameEnd};
ghost use Rattle.corner_set.specs.declared.choices.Missing.{Missing};
ghost use Rattle.net_parasitics.specs.declared.ends.ParasiticsEnd.{ParasiticsEnd};
ghost use Rattle.net_parasitics.specs.declared.ends.ParasiticsEnd.TheVariants.{OutOfMemory};

/// The law of the loads and the Elmore sums, which its contract states: where the sections of a file are of different nets, the nets of
/// a netlist have one table of loads and Elmore sums; where they have, they are refused for want of memory alone; and they are refused for
/// one reason. It does nothing when it is called.
pub fn one_answer()
    ensures delays { (inputs : Inputs) (missing : Missing) (one other : NetTimes) → AreDistinct (net_names inputs.sections)
        → AreNetDelays inputs missing one → AreNetDelays inputs missing other → one ≡ other }
    ensures either { (inputs : Inputs) (missing : Missing) (times : NetTimes) (end : ParasiticsEnd)
        → AreDistinct (net_names inputs.sections) → 0 < inputs.count → AreNetDelays inputs missing times
        → IsParasiticsEnd inputs missing end → end ≡ OutOfMemory }
    ensures ends { (inputs : Inputs) (missing : Missing) (one other : ParasiticsEnd) → AreDistinct (net_names inputs.sections)
        → 0 < inputs.count → IsParasiticsEnd inputs missing one → IsParasiticsEnd inputs missing other → IsSameEnd one other }
{}

/// The law of names, which its contract states: in the flat netlist of a design no two instances have one name, and no two bits of
/// ports. It does nothing when it is called.
pub fn named_apart()
    ensures { (modules : List NetModule) (name : List ℕ) (cells : List NamedCells) (netlist : FlatNetlist)
        → IsFlatDesign modules name cells netlist → AreNamedApart netlist }
{}
