// The table of refusals of a list of symmetry operators (document 02, No. 5), and that the check answers by it. This crate has no code; it is its specs/ and proofs/.
#![tactic(auto)]
