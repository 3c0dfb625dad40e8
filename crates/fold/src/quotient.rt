// The combined value at a challenge, the new e, and the quotient.
ghost use Rattle.std.specs.Prelude.{◌≡◌, map, ◌+◌, ◌*◌, ◌≤◌, ◌<◌, length};
ghost use Rattle.field.specs.BabyBear.{baby_bear, val, ofℕ};
ghost use Rattle.field.specs.Numbers.{Below};
ghost use Rattle.theory.specs.Combination.{mix_e, new_e, combined_value, quotient_size, quotient_of};
ghost use Rattle.theory.specs.Fp.{circuit, item_size, read_items, read_witness};
ghost use Rattle.fold.specs.Fits.{Fits, quotient_at};

use crate::basis::Weights;
use crate::{basis, combine, interpolate};
use field::Inverses;
use r1cs::list::List;
use r1cs::sizes::Sizes;

// The sum of L_i × e_i; from one item to the next are `stride` numbers.
fn mixed_e(m: usize, n: usize, stride: usize, weights: &Weights, items: &[u8]) -> u32
    requires { (length items.now ≡ weights.now.l * item_size m n) × (4 * stride ≡ item_size m n) }
    ensures { result ≡ val (mix_e baby_bear (read_items m n weights.now.l items.now) (ofℕ weights.now.at)) }
{
    combine::weighted(weights.as_slice(), items, stride, 0)
}

// The value at the combined r, x and w.
fn combined_value(list: &List<'_>, weights: &Weights) -> u32
    requires { Fits list.now.sizes.n list.now.sizes.k list.now.circuit.a.now list.now.circuit.b.now list.now.circuit.c.now × (weights.now.l ≡ list.now.l) }
    ensures { result ≡ val (combined_value baby_bear (circuit list.now.circuit.a.now list.now.circuit.b.now list.now.circuit.c.now) list.now.sizes.m list.now.sizes.n list.now.sizes.k (read_items list.now.sizes.m list.now.sizes.n list.now.l list.now.items.now) (read_witness list.now.sizes.k list.now.wits.now) (ofℕ weights.now.at)) }
{
    let Sizes { m, n, k, .. } = list.sizes;
    let stride = list.sizes.stride();
    let weights = weights.as_slice();
    let mut r = [0u32; 6];
    let r = &mut r[..m];
    let mut z = [0u32; 128];
    let z = &mut z[..n + k];
    combine::combine(weights, list.items, stride, 1, r);
    combine::combine(weights, list.items, stride, 1 + m, &mut z[..n]);
    combine::combine(weights, list.wits, k, 0, &mut z[n..]);
    list.circuit.value(r, z)
}

// The quotient's value at l + i: (value - sum of L_i × e_i) / Z.
fn quotient_value(list: &List<'_>, i: usize, inverses: &Inverses) -> u32
    requires { Fits list.now.sizes.n list.now.sizes.k list.now.circuit.a.now list.now.circuit.b.now list.now.circuit.c.now × (list.now.l + i < 64) }
    ensures { result ≡ val (quotient_at list.now.sizes.m list.now.sizes.n list.now.sizes.k list.now.l list.now.circuit.a.now list.now.circuit.b.now list.now.circuit.c.now list.now.items.now list.now.wits.now (ofℕ (list.now.l + i))) }
{
    let weights = Weights::new(list.l, (list.l + i) as u32, inverses);
    let value = combined_value(list, &weights);
    let Sizes { m, n, .. } = list.sizes;
    let e = mixed_e(m, n, list.sizes.stride(), &weights, list.items);
    field::mul(
        field::sub(value, e),
        basis::inverse_vanishing(list.l, i, inverses),
    )
}

// Writes the quotient's coefficients.
pub fn quotient(list: &List<'_>, out: &mut [u32])
    requires { Fits list.now.sizes.n list.now.sizes.k list.now.circuit.a.now list.now.circuit.b.now list.now.circuit.c.now × (length out.old ≡ quotient_size list.now.sizes.m list.now.l) }
    ensures { out.new ≡ map val (quotient_of baby_bear (circuit list.now.circuit.a.now list.now.circuit.b.now list.now.circuit.c.now) list.now.sizes.m list.now.sizes.n list.now.sizes.k (read_items list.now.sizes.m list.now.sizes.n list.now.l list.now.items.now) (read_witness list.now.sizes.k list.now.wits.now)) }
{
    let inverses = Inverses::new();
    for (i, value) in out.iter_mut().enumerate() {
        *value = quotient_value(list, i, &inverses);
    }
    interpolate::interpolate(list.l as u32, &inverses, out);
}

// The new e at the challenge: the sum of L_i × e_i, plus Z × quotient; from one item to the next are `stride` numbers.
pub fn new_e(
    m: usize,
    n: usize,
    stride: usize,
    weights: &Weights,
    items: &[u8],
    coefficients: &[u32],
) -> u32
    requires { (m ≤ 6) × (n ≤ 64) × (length items.now ≡ weights.now.l * item_size m n) × Below coefficients.now × (4 * stride ≡ item_size m n) }
    ensures { result ≡ val (new_e baby_bear (read_items m n weights.now.l items.now) (map ofℕ coefficients.now) (ofℕ weights.now.at)) }
{
    let at = weights.at;
    let e = mixed_e(m, n, stride, weights, items);
    field::add(
        e,
        field::mul(
            basis::vanishing(weights.l, at),
            code::value_at(coefficients, at),
        ),
    )
}
