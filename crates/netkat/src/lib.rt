// The meaning of rules and of the emptiness search: no function of its own, only specs/ and proofs/.
#![tactic(auto)]
