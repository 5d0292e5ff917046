// Commands, each read from a place on, against the readers of crates/gil/specs/Reading.antt. What holds of the place after a form and after
// a fault stands in crates/text_forms.
#![tactic(auto)]

pub mod commands;
