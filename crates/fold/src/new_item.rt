// The numbers of the new item at a challenge: e, r and x.
ghost use Rattle.std.specs.Prelude.{◌≡◌, ◌∷◌, ◌++◌, map, ◌+◌, ◌*◌, ◌≤◌, length};
ghost use Rattle.field.specs.BabyBear.{baby_bear, val, ofℕ};
ghost use Rattle.field.specs.Numbers.{Below};
ghost use Rattle.theory.specs.Combination.{new_e, new_r, new_x};
ghost use Rattle.theory.specs.Fp.{item_size, read_items};

use crate::basis::Weights;
use crate::{combine, quotient};
use r1cs::sizes::Sizes;

// Fills out with the new e, r and x. The combination of the items' numbers has the sum of L_i × e_i where e belongs.
pub fn new_numbers(
    sizes: Sizes,
    weights: &Weights,
    items: &[u8],
    coefficients: &[u32],
    out: &mut [u32],
)
    requires { (1 ≤ weights.now.l) × (length items.now ≡ weights.now.l * item_size sizes.m sizes.n) × Below coefficients.now × (length out.old ≡ 1 + sizes.m + sizes.n) }
    ensures { out.new ≡ map val (new_e baby_bear (read_items sizes.m sizes.n weights.now.l items.now) (map ofℕ coefficients.now) (ofℕ weights.now.at) ∷ new_r baby_bear sizes.m (read_items sizes.m sizes.n weights.now.l items.now) (ofℕ weights.now.at) ++ new_x baby_bear sizes.n (read_items sizes.m sizes.n weights.now.l items.now) (ofℕ weights.now.at)) }
{
    let Sizes { m, n, .. } = sizes;
    let stride = sizes.stride();
    combine::combine(weights.as_slice(), items, stride, 0, out);
    out[0] = quotient::new_e(m, n, stride, weights, items, coefficients);
}
