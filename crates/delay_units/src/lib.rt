//! Quantities of delay calculation: resistances, capacitances and times as whole grains, the decimal
//! literals that they are read from, the units that give the literals a size, rounding, and printed times.
//! It takes no memory, and nothing is a floating-point number.
#![tactic(auto)]

mod amounts;
mod fronts;
mod laws;
mod literal;
mod numbers;
mod printing;
mod quantities;
mod reading_on;
mod readings;
mod rounding;
mod short_literals;
mod signed_amounts;
mod tally;

pub use amounts::{Amount, read_amount, read_leading_amount};
pub use fronts::{behind_literal, is_literal};
pub use laws::literals;
pub use literal::{read_decimal, strip};
pub use numbers::{Decimal, NumberFault, Unit};
pub use printing::{Text32, write_atto, write_femto};
pub use quantities::{Atto, Farads, Femto, Ohms};
pub use readings::{scale, unit};
pub use rounding::{half_up, one_rounding};
pub use signed_amounts::{SignedAmount, read_signed_amount};
