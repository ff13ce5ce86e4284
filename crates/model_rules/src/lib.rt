// Which rule a decision names, and exactly when: conditions in specs/, theorems over the definitions in proofs/.
#![tactic(auto)]
