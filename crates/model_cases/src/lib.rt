// Document 01's cases and calls of the kernel's own run, computed from the definitions: specs/.
#![tactic(auto)]
