//! The quantities, each a whole number of grains.

/// A resistance in grains of 10^-6 ohm; one resistor has at most [`Ohms::MOST`].
#[derive(Clone, Copy)]
pub struct Ohms(pub u64);

impl Ohms {
    /// The largest resistance of one resistor: 10^8 ohm.
    pub const MOST: u64 = 100_000_000_000_000;
    /// One ohm is 10 to this power grains.
    pub const OHM_POWER: i32 = 6;
    /// One kiloohm is 10 to this power grains.
    pub const KILOOHM_POWER: i32 = 9;
}

/// A capacitance in grains of 10^-21 F; one capacitor has at most [`Farads::MOST`].
#[derive(Clone, Copy)]
pub struct Farads(pub u64);

impl Farads {
    /// The largest capacitance of one capacitor: 1 nF.
    pub const MOST: u64 = 1_000_000_000_000;
    /// One femtofarad is 10 to this power grains.
    pub const FEMTOFARAD_POWER: i32 = 6;
    /// One picofarad is 10 to this power grains.
    pub const PICOFARAD_POWER: i32 = 9;
}

/// A time in grains of 10^-18 s.
#[derive(Clone, Copy)]
pub struct Atto(pub i64);

impl Atto {
    /// The largest time in size that a table holds: one microsecond.
    pub const MOST: i64 = 1_000_000_000_000;
    /// One picosecond is 10 to this power attoseconds.
    pub const PICOSECOND_POWER: i32 = 6;
    /// One nanosecond is 10 to this power attoseconds.
    pub const NANOSECOND_POWER: i32 = 9;
}

/// A time in grains of 10^-15 s. One ohm times one femtofarad is one of them (Elmore 1948: a delay is a sum of
/// products of resistance and capacitance).
#[derive(Clone, Copy, PartialEq)]
pub struct Femto(pub i128);

impl Femto {
    /// The largest time in size that [`crate::write_femto`] prints.
    pub const MOST_PRINTED: i128 = 1_000_000_000_000_000_000_000_000_000;
    /// One picosecond is 10 to this power femtoseconds.
    pub const PICOSECOND_POWER: i32 = 3;
    /// One nanosecond is 10 to this power femtoseconds.
    pub const NANOSECOND_POWER: i32 = 6;
}
