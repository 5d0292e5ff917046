// The commands of a procedure, and the procedures of a text, read into the words of the program; what is counted and flagged on the way.
#![tactic(auto)]

pub mod lists;
