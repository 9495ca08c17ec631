// The work of a sequence of calls, without a desk (document 01, "Sequences of calls"; document 02, No. 9): what was typed and entered, the gathered order, whose an item is, and that the camps do not see each other. This crate has no code; it is its specs/ and proofs/.
#![tactic(auto)]
