//! One module a subject. `designs`, `limits` and `telling` are of the cells that designs use, and of designs that are refused.
mod accepted;
mod bad_ranges;
mod designs;
mod faults;
mod limits;
mod modules;
mod parsed;
mod reading;
mod refused;
mod repeated;
mod telling;
mod unpaired;
