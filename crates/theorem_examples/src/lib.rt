// The examples that document 01 marks with [P] ("Measured examples"). This crate has no code; it is its specs/ and proofs/.
#![tactic(auto)]
