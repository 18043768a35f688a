//! What the delays of a design are asked of.

use corner_set::{Beyond, Missing, Pick, WireSlew};
use delay_units::{Atto, Farads};
use edge_io::{Text, TextList};

/// The names of the files of a design: its netlist, a library for each corner, in the order of the corners, and a SPEF file.
#[derive(Drop)]
pub struct Files {
    pub netlist: Text,
    pub libraries: TextList,
    pub spef: Text,
}

/// What is asked of a design besides its files.
#[derive(Drop)]
pub struct Settings {
    /// The name of the module at the top.
    pub top: Text,
    /// The slew of the input ports, in attoseconds, from 0 to 10^12.
    pub input_slew: Atto,
    /// The load of each output port, in 10^-21 F, at most 10^12.
    pub port_load: Farads,
    /// The member of a triple of the SPEF file that counts, where a run has one corner.
    pub pick: Pick,
    /// What a net is that has a driver and a sink but no section.
    pub missing: Missing,
    /// What a lookup does past an axis of its table.
    pub beyond: Beyond,
    /// What a wire does to a slew.
    pub wire_slew: WireSlew,
}
