// The stored total weight of a CPU and the weight added up from its contexts: theorems over the definitions, in proofs/.
#![tactic(auto)]
