// The claims listing of a sheet: for each item its index, value, e, and whether it holds.
#![tactic(auto)]

pub mod listing;
