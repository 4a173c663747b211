// The string that `why` picks, as mathematics, with its laws: no function of its own, only specs/.
#![tactic(auto)]
