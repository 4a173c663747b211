// 01's corner cases: no function of its own, only specs/.
#![tactic(auto)]
