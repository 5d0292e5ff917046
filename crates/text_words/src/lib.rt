// From bytes to words: character classes, the reserved words, numbers, and what a run of characters is. Every contract cites the definitions
// of crates/gil/specs/Text.antt; what a run is to the code stands in specs/Mirror.
#![tactic(auto)]

pub mod classes;
pub mod keys;
pub mod words;
