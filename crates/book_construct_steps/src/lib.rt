// The constructor lines of a book as steps, with what they mean: no function of its own, only specs/.
#![tactic(auto)]
