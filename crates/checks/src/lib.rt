// The checks that the calls share, and what they need of a witness: its codeword and its root.
#![tactic(auto)]

pub mod claims;
pub mod elements;
pub mod item;
pub mod leading;
pub mod list;
pub mod order;
pub mod points;
pub mod refusal;
pub mod sizes;
pub mod witness;
