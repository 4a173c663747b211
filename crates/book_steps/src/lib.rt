// A whole book: its text, its outcome, what it means and what is promised of it. No function of its own, only specs/.
#![tactic(auto)]
