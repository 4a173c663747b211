// The states and members of aut.rs and its constructors as steps, with their laws: no function of its own, only specs/.
#![tactic(auto)]
