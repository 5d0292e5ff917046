// Wrong versions of the calls, each refused by a demand, stand in specs/WrongVersions.antt; this crate has no code of its own.
#![tactic(auto)]
