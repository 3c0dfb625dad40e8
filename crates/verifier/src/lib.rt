// Verifying a fold, without circuit and witness.
#![tactic(auto)]

mod combined;
mod input;
mod opened;
mod shown;
pub mod verify;
