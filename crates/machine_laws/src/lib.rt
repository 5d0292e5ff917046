// That the engine's functions over words are document 01's machine: one command of crates/machine_commands or crates/machine_actions is one move of the
// machine, for the plain run and for exploring. specs/ has the relation and the laws; this crate has no code of its own.
#![tactic(auto)]
