// The Lagrange basis L_i and the vanishing polynomial Z over the nodes 0 to l - 1, at a challenge.
ghost use Rattle.std.specs.Prelude.{◌≡◌, ◌+◌, ◌≤◌, ◌<◌, take, eqb};
ghost use Rattle.algebra.specs.Lagrange.{factor};
ghost use Rattle.field.specs.BabyBear.{baby_bear, p, val, ofℕ, inv};
ghost use Rattle.theory.specs.Combination.{node, L, Z};
ghost use Rattle.fold.specs.Weights.{lagrange_at};

use field::Inverses;

// L_0 to L_(l - 1) at the challenge `at`: the weights of l items.
#[derive(Clone, Copy)]
pub struct Weights {
    pub l: usize,
    pub at: u32,
    values: [u32; 8],
    pub ghost l_most: { l ≤ 8 },
    pub ghost at_below: { at < p },
    pub ghost of_each: { take l values ≡ lagrange_at l at },
}

impl Weights {
    pub fn new(l: usize, at: u32, inverses: &Inverses) -> Self
        requires { (l ≤ 8) × (at < p) }
        ensures { (result.l ≡ l) × (result.at ≡ at) }
    {
        let mut values = [0u32; 8];
        for i in 0..l {
            values[i] = basis(l, i, at, inverses);
        }
        Weights { l, at, values }
    }

    pub fn as_slice(&self) -> &[u32]
        ensures { result.now ≡ lagrange_at self.now.l self.now.at }
    {
        &self.values[..self.l]
    }
}

// The factor (a - j) / (i - j) of L_i, and 1 where j is i.
fn factor(i: usize, j: usize, a: u32, inverses: &Inverses) -> u32
    requires { (i < 8) × (j < 8) × (a < p) }
    ensures { result ≡ val (factor baby_bear (eqb i j) (node baby_bear i) (node baby_bear j) (ofℕ a)) }
{
    if i == j {
        return 1;
    }
    if j < i {
        return field::mul(field::sub(a, j as u32), inverses.of(i - j));
    }
    field::mul(field::sub(j as u32, a), inverses.of(j - i))
}

// L_i at a.
fn basis(l: usize, i: usize, a: u32, inverses: &Inverses) -> u32
    requires { (l ≤ 8) × (i < l) × (a < p) }
    ensures { result ≡ val (L baby_bear l i (ofℕ a)) }
{
    let mut product: u32 = 1;
    for j in 0..l {
        product = field::mul(product, factor(i, j, a, inverses));
    }
    product
}

// Z at a: the product of a - i over the nodes i.
pub fn vanishing(l: usize, a: u32) -> u32
    requires { (l ≤ 8) × (a < p) }
    ensures { result ≡ val (Z baby_bear l (ofℕ a)) }
{
    let mut product: u32 = 1;
    for j in 0..l {
        product = field::mul(product, field::sub(a, j as u32));
    }
    product
}

// The inverse of Z at l + i, by the inverses of the small numbers l + i - j.
pub fn inverse_vanishing(l: usize, i: usize, inverses: &Inverses) -> u32
    requires { (l ≤ 8) × (l + i < 64) }
    ensures { result ≡ val (inv (Z baby_bear l (ofℕ (l + i)))) }
{
    let mut product: u32 = 1;
    for j in 0..l {
        product = field::mul(product, inverses.of(l + i - j));
    }
    product
}
