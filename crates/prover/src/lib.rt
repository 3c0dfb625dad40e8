// The quotient of a list of items, and folding the list.
#![tactic(auto)]

pub mod folding;
mod new;
pub mod quotient;
