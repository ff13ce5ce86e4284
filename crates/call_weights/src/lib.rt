// The stored total weights and those added up, before and after calls on images: theorems over the definitions, in proofs/.
#![tactic(auto)]
