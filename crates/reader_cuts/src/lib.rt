// Reading a log whole and in parts (document 02, No. 10), over any sheets and any judgement of a record. This crate has no code; it is its specs/ and proofs/.
#![tactic(auto)]
