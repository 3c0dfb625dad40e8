// Checks 10 and 11: an item matches its witness; an item holds with its witness. Where items lie is said by their size in bytes.
ghost use Rattle.std.specs.Prelude.{◌≡◌, true, ◌+◌, ◌*◌, ◌≤◌, length};
ghost use Rattle.numbers.specs.Equality.{same_bytes};
ghost use Rattle.field.specs.BabyBear.{R, val};
ghost use Rattle.tree.specs.Layout.{part};
ghost use Rattle.code.specs.Points.{is_witness_count};
ghost use Rattle.theory.specs.R1cs.{value};
ghost use Rattle.theory.specs.Checks.{every};
ghost use Rattle.theory.specs.Sizes.{points_fit, elements_below, circuit_in_order};
ghost use Rattle.theory.specs.Fp.{witness_root, elements, circuit as circuit_read, item_front, read_item, read_witness, item_below, holds};

use crate::witness;
use r1cs::circuit::Circuit;

// Check 10 for one item, whose root is given.
pub fn matches(k: usize, points: &[u8], root: &[u8], wit: &[u8]) -> bool
    requires { (is_witness_count k ≡ true) × (length wit.now ≡ 4 * k) × (elements_below wit.now ≡ true) × (points_fit k points.now ≡ true) }
    ensures { result ≡ same_bytes root.now (witness_root k points.now (elements k wit.now)) }
{
    let expected = witness::root(k, points, wit);
    check::same(root, &expected)
}

// The value at r, x and w.
pub fn claim_value(
    m: usize,
    n: usize,
    k: usize,
    circuit: &Circuit<'_>,
    r: &[u8],
    x: &[u8],
    w: &[u8],
) -> u32
    requires m_bound { (m ≤ 6) × (n ≤ 64) × (k ≤ 64) × (length r.now ≡ 4 * m) × (length x.now ≡ 4 * n) × (length w.now ≡ 4 * k) }
    requires r_value { (elements_below r.now ≡ true) × (circuit_in_order m n k circuit.now.a.now circuit.now.b.now circuit.now.c.now ≡ true) }
    ensures { result ≡ val (value R (circuit_read circuit.now.a.now circuit.now.b.now circuit.now.c.now) (elements m r.now) (elements n x.now) (elements k w.now)) }
{
    let mut rs = [0u32; 6];
    let rs = &mut rs[..m];
    numbers::load(r, rs);
    let mut z = [0u32; 128];
    let z = &mut z[..n + k];
    numbers::load(x, &mut z[..n]);
    numbers::load(w, &mut z[n..]);
    circuit.value(rs, z)
}

// The value at an item's r and x and at its witness.
pub fn item_value(
    m: usize,
    n: usize,
    k: usize,
    circuit: &Circuit<'_>,
    item: &[u8],
    wit: &[u8],
) -> u32
    requires m_bound { (m ≤ 6) × (n ≤ 64) × (k ≤ 64) × (item_front m n ≤ length item.now) × (length wit.now ≡ 4 * k) }
    requires item_value { (item_below m n item.now ≡ true) × (circuit_in_order m n k circuit.now.a.now circuit.now.b.now circuit.now.c.now ≡ true) }
    ensures { result ≡ val (value R (circuit_read circuit.now.a.now circuit.now.b.now circuit.now.c.now) (read_item m n item.now).r (read_item m n item.now).x (elements k wit.now)) }
{
    let x = 4 + 4 * m;
    claim_value(m, n, k, circuit, &item[4..x], &item[x..x + 4 * n], wit)
}

// Check 11 for one item.
pub fn holds(m: usize, n: usize, k: usize, circuit: &Circuit<'_>, item: &[u8], wit: &[u8]) -> bool
    requires m_bound { (m ≤ 6) × (n ≤ 64) × (k ≤ 64) × (item_front m n ≤ length item.now) × (length wit.now ≡ 4 * k) }
    requires item_value { (item_below m n item.now ≡ true) × (circuit_in_order m n k circuit.now.a.now circuit.now.b.now circuit.now.c.now ≡ true) }
    ensures { result ≡ holds (circuit_read circuit.now.a.now circuit.now.b.now circuit.now.c.now) (read_item m n item.now) (elements k wit.now) }
{
    item_value(m, n, k, circuit, item, wit) == numbers::get(item, 0)
}

// Check 10 for each of l items of `size` bytes, whose roots stand behind the first `front` of them.
pub fn all_match(
    k: usize,
    l: usize,
    size: usize,
    front: usize,
    points: &[u8],
    items: &[u8],
    wits: &[u8],
) -> bool
    requires { (is_witness_count k ≡ true) × (front + 32 ≤ size) × (length items.now ≡ l * size) × (length wits.now ≡ l * (4 * k)) × (elements_below wits.now ≡ true) × (points_fit k points.now ≡ true) }
    ensures { result ≡ every l (λ i. same_bytes (part items.now (i * size + front) 32) (witness_root k points.now (read_witness k wits.now i))) }
{
    let width = 4 * k;
    (0..l).all(|i| {
        let root = i * size + front;
        let wit = i * width;
        matches(k, points, &items[root..root + 32], &wits[wit..wit + width])
    })
}

// Check 11 for each of l items of `size` bytes.
pub fn all_hold(
    m: usize,
    n: usize,
    k: usize,
    l: usize,
    size: usize,
    circuit: &Circuit<'_>,
    items: &[u8],
    wits: &[u8],
) -> bool
    requires m_bound { (m ≤ 6) × (n ≤ 64) × (k ≤ 64) × (item_front m n ≤ size) × (length items.now ≡ l * size) × (length wits.now ≡ l * (4 * k)) }
    requires size_value { (every l (λ i. item_below m n (part items.now (i * size) size)) ≡ true) × (circuit_in_order m n k circuit.now.a.now circuit.now.b.now circuit.now.c.now ≡ true) }
    ensures { result ≡ every l (λ i. holds (circuit_read circuit.now.a.now circuit.now.b.now circuit.now.c.now) (read_item m n (part items.now (i * size) size)) (read_witness k wits.now i)) }
{
    let width = 4 * k;
    (0..l).all(|i| {
        let item = i * size;
        let wit = i * width;
        holds(
            m,
            n,
            k,
            circuit,
            &items[item..item + size],
            &wits[wit..wit + width],
        )
    })
}
