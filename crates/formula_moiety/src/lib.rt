// Moiety formulas (document 02, No. 12): what they are, how a text is read as one, and the total of each element. This crate has no code; it is its specs/ and proofs/.
#![tactic(auto)]
