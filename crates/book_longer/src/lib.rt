// That more lent memory never takes an answer away: no function of its own, only specs/ and proofs/.
#![tactic(auto)]
