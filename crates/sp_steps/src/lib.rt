// Packet sets as mathematics: no function of its own, only specs/.
#![tactic(auto)]
