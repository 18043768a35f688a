//! The units of a SPEF file.
ghost use Rattle.std.specs.Prelude.{◌≡◌, ◌≤◌, unsigned_abs, IfSome, IfNone};
ghost use Rattle.spef_text.specs.Units.{power_of, IsUnit, IsNoUnit};

use delay_units::{Farads, Ohms, Unit, read_decimal, unit};

/// What a unit is of.
#[derive(Clone, Copy)]
pub enum Quantity {
    /// In grains of 10^-21 F.
    Capacitance,

    /// In grains of 10^-6 ohm.
    Resistance,
}

impl Quantity {
    // The power of ten that a word stands for, in any case of letters.
    #[tactic(auto, unfolding(crate::specs::Units::same_word))]
    fn power_of(self, word: &[u8]) -> Option<i32>
        ensures { result ≡ power_of self word.now }
    {
        match self {
            Quantity::Capacitance => {
                if word.eq_ignore_ascii_case(b"FF") {
                    Some(Farads::FEMTOFARAD_POWER)
                } else if word.eq_ignore_ascii_case(b"PF") {
                    Some(Farads::PICOFARAD_POWER)
                } else {
                    None
                }
            }
            Quantity::Resistance => {
                if word.eq_ignore_ascii_case(b"OHM") {
                    Some(Ohms::OHM_POWER)
                } else if word.eq_ignore_ascii_case(b"KOHM") {
                    Some(Ohms::KILOOHM_POWER)
                } else {
                    None
                }
            }
        }
    }

    /// The unit that a literal and a word name: `FF` or `PF` for capacitances, `OHM` or `KOHM` for resistances, in any case
    /// of letters. `None` where the word is another, or the literal is not positive, has more than seven significant digits,
    /// or leaves an exponent past 99 in size.
    pub fn unit_of(self, number: &[u8], word: &[u8]) -> Option<Unit>
        ensures some { IfSome result (IsUnit self number.now word.now) }
        ensures none { IfNone result (IsNoUnit self number.now word.now) }
    {
        match self.power_of(word) {
            None => None,
            Some(power) => match read_decimal(number) {
                Ok(value) => unit(&value, power),
                Err(_) => None,
            },
        }
    }
}
