// Algebra for the contracts and proofs of other crates, over any field: definitions in specs/, laws in proofs/. There is no code.
#![tactic(auto)]
