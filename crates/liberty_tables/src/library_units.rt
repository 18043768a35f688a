//! The units of a library.
use delay_units::Unit;

/// The units of a library (Liberty, `time_unit` and `capacitive_load_unit`): attoseconds of a time, and grains of 10^-21 F of a load.
#[derive(Clone, Copy)]
pub struct LibraryUnits {
    pub time: Unit,
    pub load: Unit,
}
