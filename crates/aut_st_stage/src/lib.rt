// How the functions on lists of transitions are proved: no function of its own, only laws in proofs/.
#![tactic(auto)]
