// What holds of fetching, as theorems over the definitions of fetching and of reading: no code.
#![tactic(auto)]
