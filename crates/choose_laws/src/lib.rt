// What holds of the chosen record, as theorems over the definitions of choosing: no code.
#![tactic(auto)]
