// A log fed in parts to a fresh desk: every cut, what a refusal leaves, and the table of refusals (document 02, No. 10). This crate has no code; it is its specs/ and
// proofs/.
#![tactic(auto)]
