// What an accepted call leaves: lemmas over the definitions, in proofs/.
#![tactic(auto)]
