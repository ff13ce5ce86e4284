// Locks of contexts that a call's CPU does not name make no difference to it: theorems over the calls, in proofs/.
#![tactic(auto)]
