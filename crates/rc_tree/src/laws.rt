//! The laws of what the contracts speak of.
ghost use Rattle.std.specs.Prelude.{ℕ, ◌<◌, length};
ghost use Rattle.name_table.specs.declared.spef_names.NodeName.{NodeName};
ghost use Rattle.spef_nets.specs.NetElements.{NetElements as SectionElements};
ghost use Rattle.rc_tree.specs.NetElements.{NetElements};
ghost use Rattle.rc_tree.specs.ListedPins.{listed_pins};
ghost use Rattle.rc_tree.specs.Pins.{pin_nodes};
ghost use Rattle.rc_tree.specs.SectionNets.{IsFirstStrange};
ghost use Rattle.rc_tree.specs.RcTree.{OneShape};
ghost use Rattle.rc_tree.specs.Elmore.{OneElmore};
ghost use Rattle.rc_tree.specs.TwoPasses.{TwoPassLaw};
ghost use Rattle.rc_tree.specs.Nodes.{Node};

/// The law of Elmore delays, which its contract states: no node of a net has two, nor one of a tree. It does nothing when it
/// is called.
pub fn one_elmore()
    ensures net { (net : NetElements Node) → OneElmore net }
    ensures tree { (net : NetElements ℕ) → OneElmore net }
{}

/// The law of the shapes of nets, which its contract states: a tree is no mesh, and neither has an unreached node. It
/// does nothing when it is called.
pub fn one_shape()
    ensures law { (net : NetElements Node) → OneShape net }
{}

/// The law of the two passes, which its contract states: the sum over pairs of a resistor and a capacitance is the sum,
/// over the resistors that cut a node off, of resistance times the capacitance that the resistor cuts off. It does nothing
/// when it is called.
pub fn two_passes()
    ensures net { (net : NetElements Node) → TwoPassLaw net }
    ensures tree { (net : NetElements ℕ) → TwoPassLaw net }
{}

/// The law of the pins that are the connections of a section, which its contract states: no connection is strange to them. It
/// does nothing when it is called.
pub fn no_stranger()
    ensures { (count : ℕ) (section : SectionElements) (driver : ℕ) (name : NodeName) → driver < length section.conns
        → ¬ IsFirstStrange section (pin_nodes (listed_pins count section driver)) name }
{}
