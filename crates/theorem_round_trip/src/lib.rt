// The round trip of the CIF file (document 02, No. 1): its item lines, typed into a fresh desk, give every value again. This crate has no code; it is its specs/ and proofs/.
#![tactic(auto)]
