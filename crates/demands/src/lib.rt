// The three demands on the calls stand in specs/Demands.antt; proofs/Demands.antt proves that the calls meet them. There is no code here.
#![tactic(auto)]
