// What folding writes beside the quotient: the new witness and the new item.
ghost use Rattle.std.specs.Prelude.{◌≡◌, true, ◌∷◌, ◌++◌, map, ◌*◌, length};
ghost use Rattle.field.specs.BabyBear.{baby_bear, ofℕ};
ghost use Rattle.field.specs.Numbers.{Below};
ghost use Rattle.theory.specs.Combination.{new_e, new_r, new_x};
ghost use Rattle.theory.specs.Sizes.{points_fit, elements_below};
ghost use Rattle.theory.specs.Fp.{witness_root, elements, element_bytes, item_size, read_items, new_witness};

use fold::basis::Weights;
use r1cs::list::List;

// Writes the new witness, with the given weights.
pub fn write_witness(list: &List<'_>, weights: &Weights, out: &mut [u8])
    requires { (weights.now.l ≡ list.now.l) × (length out.old ≡ 4 * list.now.sizes.k) }
    ensures { out.new ≡ element_bytes (new_witness list.now.sizes.k list.now.l (ofℕ weights.now.at) list.now.wits.now) }
{
    let k = list.sizes.k;
    let mut values = [0u32; 64];
    let values = &mut values[..k];
    fold::combine::combine(weights.as_slice(), list.wits, k, 0, values);
    numbers::store(values, out);
}

// Writes the new item, with the given weights, the quotient's numbers and the new witness.
pub fn write_item(
    list: &List<'_>,
    weights: &Weights,
    points: &[u8],
    coefficients: &[u32],
    wit: &[u8],
    out: &mut [u8],
)
    requires coefficients { (weights.now.l ≡ list.now.l) × Below coefficients.now × (length out.old ≡ item_size list.now.sizes.m list.now.sizes.n) }
    requires wit { (length wit.now ≡ 4 * list.now.sizes.k) × (elements_below wit.now ≡ true) × (points_fit list.now.sizes.k points.now ≡ true) }
    ensures { out.new ≡ element_bytes (new_e baby_bear (read_items list.now.sizes.m list.now.sizes.n list.now.l list.now.items.now) (map ofℕ coefficients.now) (ofℕ weights.now.at) ∷ new_r baby_bear list.now.sizes.m (read_items list.now.sizes.m list.now.sizes.n list.now.l list.now.items.now) (ofℕ weights.now.at) ++ new_x baby_bear list.now.sizes.n (read_items list.now.sizes.m list.now.sizes.n list.now.l list.now.items.now) (ofℕ weights.now.at)) ++ witness_root list.now.sizes.k points.now (elements list.now.sizes.k wit.now) }
{
    let sizes = list.sizes;
    let mut values = [0u32; 71];
    let values = &mut values[..sizes.item_numbers()];
    fold::new_item::new_numbers(sizes, weights, list.items, coefficients, values);
    let root = checks::witness::root(sizes.k, points, wit);
    checks::item::write(values, root, out);
}
