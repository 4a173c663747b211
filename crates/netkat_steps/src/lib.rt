// Steps over any store: aut.rs's operations on transition lists, and its search over handles. No code: specs/ and proofs/ have it.
#![tactic(auto)]
