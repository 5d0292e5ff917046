// That what crates/print_fields and crates/print_lines write, from the bytes of a table and its pool, is document 01's printed table. specs/ has
// the laws; this crate has no code of its own.
#![tactic(auto)]
