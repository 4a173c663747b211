// The form of an image, as mathematics, with its laws: no function of its own, only specs/.
#![tactic(auto)]
