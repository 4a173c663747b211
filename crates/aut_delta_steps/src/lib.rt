// aut.rs's epsilon and delta as steps, with their laws: no function of its own, only specs/.
#![tactic(auto)]
