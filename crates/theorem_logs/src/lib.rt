// What the used log of a desk tells, after every sequence of calls: it gives back the desk's sheets (document 02, No. 10), and it has one history (No. 14). This crate
// has no code; it is its specs/ and proofs/.
#![tactic(auto)]
