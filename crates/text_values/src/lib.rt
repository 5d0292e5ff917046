// What follows `v :=` in a command, read from a place on, against the readers of crates/gil/specs/Reading.antt.
#![tactic(auto)]

pub mod values;
