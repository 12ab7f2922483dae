// What holds of the tally of an accepted record: no code.
#![tactic(auto)]
