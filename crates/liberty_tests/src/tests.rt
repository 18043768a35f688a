//! One module a subject.
mod cell_sets;
mod cells;
mod faults;
mod joining;
mod libraries;
mod lookups;
mod models;
mod refused_files;
mod tables;
mod trees;
