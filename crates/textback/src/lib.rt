// What the text of a band says, request #101: definitions and theorems, no code.
#![tactic(auto)]
