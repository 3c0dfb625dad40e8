// Check 7: the new item's r, x and e are the ones defined for the challenge.
ghost use Rattle.std.specs.Prelude.{◌≡◌, true, ◌*◌, ◌≤◌, length, get_or, eqb};
ghost use Rattle.theory.specs.Checks.{every};
ghost use Rattle.theory.specs.Buffers.{number_at};
ghost use Rattle.theory.specs.Sizes.{elements_below};
ghost use Rattle.theory.specs.Fp.{item_below, combines};
ghost use Rattle.verifier.specs.Verifying.{batch, coefficients, shown};

use crate::shown::Fold;
use fold::basis::Weights;
use fold::new_item;

// Whether the first numbers of the item are the expected ones.
fn has_numbers(item: &[u8], expected: &[u32]) -> bool
    requires { 4 * length expected.now ≤ length item.now }
    ensures { result ≡ every (length expected.now) (λ j. eqb (number_at item.now j) (get_or expected.now j 0)) }
{
    (0..expected.len()).all(|j| numbers::get(item, j) == expected[j])
}

// Check 7, with the weights at the challenge.
pub fn combines(fold: &Fold<'_>, weights: &Weights) -> bool
    requires { (weights.now.l ≡ fold.now.l) × (elements_below fold.now.quotient.now ≡ true) × (item_below fold.now.sizes.m fold.now.sizes.n fold.now.item.now ≡ true) }
    ensures { result ≡ combines fold.now.sizes.m fold.now.sizes.n (batch fold.now) (coefficients fold.now) (shown fold.now weights.now.at) }
{
    let sizes = fold.sizes;
    let mut coefficients = [0u32; 49];
    let coefficients = &mut coefficients[..sizes.quotient_size(fold.l)];
    numbers::load(fold.quotient, coefficients);
    let mut expected = [0u32; 71];
    let expected = &mut expected[..sizes.item_numbers()];
    new_item::new_numbers(sizes, weights, fold.items, coefficients, expected);
    has_numbers(fold.item, expected)
}
