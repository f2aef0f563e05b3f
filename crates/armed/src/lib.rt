// No picture holds a stroke without arms: definitions and theorems, no code.
#![tactic(auto)]
