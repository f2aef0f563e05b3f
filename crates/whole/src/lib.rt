// Wide characters are always whole, request #112: definitions and theorems, no code.
#![tactic(auto)]
