// Packets, sets and relations of packets, and outcomes of steps: no function of its own, only specs/.
#![tactic(auto)]
