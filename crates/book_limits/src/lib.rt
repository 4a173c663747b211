// That larger limits take no answer of a book away: no function of its own, only specs/ and proofs/.
#![tactic(auto)]
