// A fold as it is shown to the verifier.
ghost use Rattle.std.specs.Prelude.{◌≡◌, suc, ◌*◌, ◌≤◌, length};
ghost use Rattle.tree.specs.Layout.{opening_size};
ghost use Rattle.code.specs.Points.{depth};
ghost use Rattle.theory.specs.Combination.{quotient_size};
ghost use Rattle.theory.specs.Fp.{item_size};

use r1cs::sizes::Sizes;

// l items, t positions, the quotient, the new item and the openings, with the sizes and lengths of check 2.
#[derive(Clone, Copy)]
pub struct Fold<'a> {
    pub sizes: Sizes,
    pub l: usize,
    pub t: usize,
    pub items: &'a [u8],
    pub positions: &'a [u8],
    pub quotient: &'a [u8],
    pub item: &'a [u8],
    pub openings: &'a [u8],
    ghost l_least: { 1 ≤ l },
    ghost l_most: { l ≤ 8 },
    ghost t_most: { t ≤ 4 * sizes.k },
    ghost items_length: { length items.now ≡ l * item_size sizes.m sizes.n },
    ghost positions_length: { length positions.now ≡ 4 * t },
    ghost quotient_length: { length quotient.now ≡ 4 * quotient_size sizes.m l },
    ghost item_length: { length item.now ≡ item_size sizes.m sizes.n },
    ghost openings_length: { length openings.now ≡ t * suc l * opening_size (depth sizes.k) },
}
