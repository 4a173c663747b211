// That a book continued from an image gets the answers of the uninterrupted run, as laws: no function of its own, only specs/ and proofs/.
#![tactic(auto)]
