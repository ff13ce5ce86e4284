// What a switch reads and writes, and switches of CPUs that name no context together: theorems over the definitions, in proofs/.
#![tactic(auto)]
