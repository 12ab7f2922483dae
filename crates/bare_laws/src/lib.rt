// What holds of a bare 00: laws in proofs/, no code. Rests on the definitions of reading, fetching, the walker, showing and building.
#![tactic(auto)]
