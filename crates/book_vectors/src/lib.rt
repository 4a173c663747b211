// Books with their whole outcomes: no function of its own, only specs/.
#![tactic(auto)]
