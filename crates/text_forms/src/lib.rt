// The parts of commands: marks, names, numbers, operators and expressions, each read from a place on, against the readers of
// crates/gil/specs/Reading.antt, and the stores of their words. A reader gives what it read and the place after it, or `None` after a fault.
#![tactic(auto)]

pub mod exprs;
pub mod forms;
pub mod store;
