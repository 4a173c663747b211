// The operations of aut.rs on transition lists (ST) as steps on its tables, with their laws: no function of its own, only specs/.
#![tactic(auto)]
