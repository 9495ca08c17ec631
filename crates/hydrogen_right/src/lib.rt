// When a count of hydrogen is right for a formula and a weight, and where the helper starts (document 02, No. 13). This crate has no code; it is its specs/ and proofs/.
#![tactic(auto)]
