// `why` as steps on all tables, with its laws: no function of its own, only specs/.
#![tactic(auto)]
