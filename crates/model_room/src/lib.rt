// Where a decision is certain to find room: a lemma over the definitions, in proofs/.
#![tactic(auto)]
