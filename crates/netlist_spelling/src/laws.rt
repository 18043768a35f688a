//! The law of how the names of a flat netlist are spelled.
ghost use Rattle.std.specs.Prelude.{ℕ, List, All};
ghost use Rattle.cell_models.specs.NamedSets.{NamedCells};
ghost use Rattle.verilog_netlist.specs.NetModules.{NetModule};
ghost use Rattle.verilog_netlist.specs.SoundModules.{HasNames};
ghost use Rattle.netlist_link.specs.FlatNetlist.{FlatNetlist};
ghost use Rattle.netlist_link.specs.FlatDesigns.{IsFlatDesign};
ghost use Rattle.netlist_spelling.specs.SpelledNetlists.{AreWellSpelled, ArePinsNamed, AreNetsWellSpelled};

/// The law of spelled names, which its contract states: in the flat netlist of a design of whose modules each name has a byte,
/// the spelling of each instance and of each bit of a port is well spelled in SDF, and so is that of each net of the design; a pin that is
/// on a net has a name. It does nothing when it is called.
pub fn flat_names_are_well_spelled()
    ensures netlist { (modules : List NetModule) (name : List ℕ) (cells : List NamedCells) (netlist : FlatNetlist)
        → All HasNames modules → IsFlatDesign modules name cells netlist → AreWellSpelled netlist }
    ensures pins { (modules : List NetModule) (name : List ℕ) (cells : List NamedCells) (netlist : FlatNetlist)
        → All HasNames modules → IsFlatDesign modules name cells netlist → ArePinsNamed cells netlist }
    ensures nets { (modules : List NetModule) (top : ℕ) → All HasNames modules → AreNetsWellSpelled modules top }
{}
