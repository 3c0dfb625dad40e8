// Encoding a witness, opening positions of its codeword, and interleaving the openings of several.
#![tactic(auto)]

pub mod encode;
pub mod interleave;
pub mod open;
