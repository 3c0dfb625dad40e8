// What is written as a sheet is read back: definitions in specs/, laws in proofs/. There is no code.
#![tactic(auto)]
