// Sequences of calls on a desk in lent memory: theorems, no code.
#![tactic(auto)]
