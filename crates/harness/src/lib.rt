// The library's lower layers for tests in other languages: each function tests or reduces its own input. C gets a refusal
// as the number 1, or as that of the check that fails.
#![tactic(auto)]

mod codes;
mod fields;
mod hashes;
mod sheets;
mod trees;
