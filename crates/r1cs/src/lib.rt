// Rank-1 constraint systems: the sizes of a claim, a circuit that lies in byte buffers with its value at r and z, and lists of
// items with their witnesses.
#![tactic(auto)]

pub mod circuit;
pub mod list;
pub mod sizes;

pub use circuit::{row_sums, weight};
