// What holds of building, as theorems over the definitions of turns and of reading: no code.
#![tactic(auto)]
