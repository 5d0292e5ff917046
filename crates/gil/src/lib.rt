// Document 01's numbers for the code, each with the name that specs/Numbers.antt gives it, and what is one of a few as an enum whose discriminants
// are these numbers (specs/Codes.antt, specs/Refusals.antt). The definitions themselves stand in specs/.
#![tactic(auto)]

pub mod errors;
pub mod kinds;
pub mod layout;
pub mod limits;
pub mod numbers;
pub mod outcomes;
pub mod refusals;
pub mod tags;

// A number that stands for none of them
#[derive(Clone, Copy, Debug, PartialEq, Eq)]
pub struct Unknown(pub u32);
