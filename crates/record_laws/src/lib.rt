// What holds of reading and of what an accepted record shows: no code.
#![tactic(auto)]
