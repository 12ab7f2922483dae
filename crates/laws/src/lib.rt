// Laws only: statements in specs/, proofs in proofs/, no code. Rests on the definitions of every crate that it names.
#![tactic(auto)]
