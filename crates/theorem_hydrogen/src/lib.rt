// The hydrogen helper and the check of a count in the request's words (document 02, No. 13): the tables of their refusals, and that the helper gives the smallest right count, or none exactly if none is right. This crate has no code; it is its specs/ and proofs/.
#![tactic(auto)]
