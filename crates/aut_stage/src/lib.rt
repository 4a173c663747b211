// How a run of calls on lent tables is proved, a call at a time: no function of its own, only specs/.
#![tactic(auto)]
