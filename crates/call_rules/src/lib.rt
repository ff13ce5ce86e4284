// What the rule in a call's answer says: a theorem over the definitions of the calls, in proofs/.
#![tactic(auto)]
