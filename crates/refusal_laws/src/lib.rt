// What holds of refusals: no code.
#![tactic(auto)]
