// The scheduling decisions (context/switch.rs): their definitions are in specs/.
#![tactic(auto)]
