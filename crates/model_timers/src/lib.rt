// What a decision does with timers whose context cannot be read: theorems over the definitions, in proofs/.
#![tactic(auto)]
