//! One module a subject.
mod accepted_files;
mod files;
mod read_back;
mod refused_files;
mod rows;
mod texts;
