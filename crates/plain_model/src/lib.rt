// The plain decision engine: it leans on no sorted order and has no early exits. Its definitions are in specs/, that it is the kernel's decision in proofs/.
#![tactic(auto)]
