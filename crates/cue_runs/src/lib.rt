// What runs of calls on a cue board hand out: a theorem over the definitions of the calls, in proofs/.
#![tactic(auto)]
