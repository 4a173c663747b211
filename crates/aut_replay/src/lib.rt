// No code: that constructors, operations on transition lists, epsilon and delta, done again on later tables, give the same and make nothing (specs/, proofs/).
#![tactic(auto)]
