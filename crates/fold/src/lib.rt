// Folding: the Lagrange basis and the vanishing polynomial at a challenge, combinations of items that lie in byte buffers,
// and the quotient.
#![tactic(auto)]

pub mod basis;
pub mod combine;
pub mod interpolate;
pub mod new_item;
pub mod quotient;
