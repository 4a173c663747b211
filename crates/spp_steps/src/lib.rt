// Relations on packets: their steps and laws. No function of its own, only specs/.
#![tactic(auto)]
