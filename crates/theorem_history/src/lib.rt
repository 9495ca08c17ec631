// One log, one history (document 02, No. 14), of lists of entries and their records. This crate has no code; it is its specs/ and proofs/.
#![tactic(auto)]
