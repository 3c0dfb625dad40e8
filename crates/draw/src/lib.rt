// Drawing by hash: a challenge from items and quotient, positions from the new root, r from root and x.
#![tactic(auto)]

pub mod challenge;
mod hashed;
pub mod positions;
pub mod r;
