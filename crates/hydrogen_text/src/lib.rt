// A formula's text with another count of hydrogen (document 02, No. 13), and what its terms are. This crate has no code; it is its specs/ and proofs/.
#![tactic(auto)]
