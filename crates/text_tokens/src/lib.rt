// From bytes to tokens: a text, where white space and runs end in it, and the token at a place. Every contract cites the definitions of
// crates/gil/specs/Text.antt; what a token is to the code stands in specs/Mirror/Seen.antt.
#![tactic(auto)]

pub mod lexemes;
pub mod scan;
#[cfg(test)]
mod tests;
pub mod texts;
pub mod tokens;
