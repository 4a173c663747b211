// No code: that constructors, epsilon and delta are free of state words 7 to 11 (specs/, proofs/).
#![tactic(auto)]
