// No code: a layer of the rule for a run of calls (specs/).
#![tactic(auto)]
