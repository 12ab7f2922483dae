// What a record shows, as a plain value, and the bytes that it is written as: definitions that reader and writer share, no code.
#![tactic(auto)]
