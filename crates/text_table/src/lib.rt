//! Texts that stand in one table of bytes and are known by their numbers. A text there takes no memory of its own
//! beyond its bytes and its place, so that many small names cost few calls of the allocator.
#![tactic(auto)]

mod flat_texts;

pub use flat_texts::FlatTexts;
