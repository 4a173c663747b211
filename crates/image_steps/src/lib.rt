// Images of a book's tables as steps, with their laws: specs/ and proofs/, no function of its own.
#![tactic(auto)]
