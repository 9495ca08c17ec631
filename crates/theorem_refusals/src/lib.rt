// The tables of refusals (document 01, "Keys and their refusals"; document 02, No. 1): what a table means, each table in the documents' words, and that the calls answer by them. This crate has no code; it is its specs/ and proofs/.
#![tactic(auto)]
