//! One module a subject. The expected answers to texts are another reader's of the same grammar, and those that surprise were worked by
//! hand.
mod files;
mod heads;
mod nets;
mod out_of_memory;
mod tokens;
mod trees;
