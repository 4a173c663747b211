// The rule for a run of calls (aut_stage) where transitions and memos are written too: no function of its own, only specs/.
#![tactic(auto)]
