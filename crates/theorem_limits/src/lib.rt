// The limit of a line, which was 80 before request No. 6: what it changes and what it does not. Theorems, no code.
#![tactic(auto)]
