//! One module a subject.
mod asking;
mod designs;
