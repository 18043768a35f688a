//! One module a subject.
mod files;
mod grids;
mod literals;
mod names;
mod printing;
mod readings;
mod streams;
mod wires;
