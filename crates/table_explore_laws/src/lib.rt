// That what crates/table_explore leaves on a program's words is document 01's table and pool, or its refusal. specs/ has the laws; this crate has
// no code of its own.
#![tactic(auto)]
