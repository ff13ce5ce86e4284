// The ticks that a CPU's decisions give, and what is left over of them: theorems over the definitions, in proofs/.
#![tactic(auto)]
