// Casting an instance to an item, and deciding an item.
#![tactic(auto)]

pub mod cast;
pub mod decide;
