// What a record shows, as a map over the account of its fields, and laws of it: no code.
#![tactic(auto)]
