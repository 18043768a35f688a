//! One module a subject.
mod graphs;
mod halves;
mod netlists;
