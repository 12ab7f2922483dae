// What holds of VCF lines: no code.
#![tactic(auto)]
