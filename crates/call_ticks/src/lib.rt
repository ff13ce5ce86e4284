// The ticks that the decisions of a CPU give over calls on images: theorems over the definitions, in proofs/.
#![tactic(auto)]
