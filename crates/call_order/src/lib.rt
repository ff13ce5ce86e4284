// Switches of CPUs that are apart, in either order: theorems over the calls, in proofs/.
#![tactic(auto)]
