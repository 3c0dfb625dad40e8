// What a sheet has that passes check 2 of its counts.
ghost use Rattle.std.specs.Prelude.{◌≤◌};

use r1cs::sizes::Sizes;

// The sizes, the entries of each list and the count of pairs.
#[derive(Clone, Copy)]
pub struct Reading {
    pub sizes: Sizes,
    pub a: usize,
    pub b: usize,
    pub c: usize,
    pub pairs: usize,
    ghost a_most: { a ≤ 1024 },
    ghost b_most: { b ≤ 1024 },
    ghost c_most: { c ≤ 1024 },
    ghost pairs_most: { pairs ≤ 64 },
}
