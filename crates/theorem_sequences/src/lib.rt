// Sequences of calls (document 01, "Sequences of calls"): demand 3 of key calls, Report and Who. This crate has no code; it is its specs/ and proofs/.
#![tactic(auto)]
