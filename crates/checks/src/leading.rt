// Check 13: the first public input is 1. It is tested after check 3.
ghost use Rattle.std.specs.Prelude.{◌≡◌, true, ℕ, ◌*◌, ◌≤◌, length};
ghost use Rattle.theory.specs.Sizes.{elements_below, leading_one, items_leading_one};
ghost use Rattle.theory.specs.Fp.{fp, elements, item_size, items_below};

use r1cs::sizes::Sizes;

// The first of n inputs.
pub fn leading_one(n: usize, x: &[u8]) -> bool
    requires { (1 ≤ n) × (length x.now ≡ 4 * n) × (elements_below x.now ≡ true) }
    ensures { result ≡ leading_one fp (elements n x.now) }
{
    numbers::get(x, 0) == 1
}

// The first input of each item of a list.
pub fn items_leading_one(sizes: Sizes, items: &[u8]) -> bool
    ensures { (l : ℕ) → length items.now ≡ l * item_size sizes.m sizes.n → items_below sizes.m sizes.n l items.now ≡ true → result ≡ items_leading_one fp sizes.m sizes.n l items.now }
{
    items
        .chunks_exact(sizes.item_size())
        .all(|item| numbers::get(item, 1 + sizes.m) == 1)
}
