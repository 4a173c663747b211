// The queries of aut.rs, is_empty, live_packets and delta_pruned, as steps on all tables, with their laws: no function of its own, only specs/.
#![tactic(auto)]
