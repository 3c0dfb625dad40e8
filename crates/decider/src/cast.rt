// Casting: takes r as lent, sets e to 0 and works out the root. Checks 2, 3, 12, 4, 13 and 11.
ghost use Rattle.std.specs.Prelude.{◌≡◌, true, false, ◌&&◌, MatchOption, [], ◌∷◌, ◌++◌, ◌+◌, ◌*◌, ◌≤◌, length};
ghost use Rattle.numbers.specs.Numbers.{numbers};
ghost use Rattle.theory.specs.Checks.{check, answer};
ghost use Rattle.theory.specs.Sizes.{points_fit, circuit_below, elements_below, points_differ, circuit_in_order, leading_one};
ghost use Rattle.theory.specs.Fp.{fp, elements, circuit as circuit_read, item_size, item_bytes, holds, cast_fits, cast_item, cast};
ghost use Rattle.checks.specs.Refusals.{answer_of};

use checks::item;
use checks::refusal::{Refusal, ensure};
use r1cs::circuit::Circuit;
use r1cs::sizes::Sizes;

// Check 2, and the sizes that pass it.
fn sizes(
    m: u32,
    n: u32,
    k: u32,
    points: &[u8],
    circuit: &Circuit<'_>,
    r: &[u8],
    x: &[u8],
    w: &[u8],
    item: &[u8],
) -> Option<Sizes>
    ensures { MatchOption result (cast_fits m n k points.now circuit.now.a.now circuit.now.b.now circuit.now.c.now r.now x.now w.now item.now ≡ false) (λ s. (cast_fits m n k points.now circuit.now.a.now circuit.now.b.now circuit.now.c.now r.now x.now w.now item.now ≡ true) × (s.m ≡ m) × (s.n ≡ n) × (s.k ≡ k)) }
{
    let sizes = Sizes::new(m, n, k)?;
    let fits = checks::points::fits(sizes.k, points)
        & checks::sizes::circuit_fits(circuit)
        & (r.len() == 4 * sizes.m)
        & (x.len() == 4 * sizes.n)
        & (w.len() == 4 * sizes.k)
        & (item.len() == sizes.item_size());
    fits.then_some(sizes)
}

// Check 11: the value is 0. The item's root, and so the points, do not count.
fn holds(sizes: Sizes, circuit: &Circuit<'_>, r: &[u8], x: &[u8], w: &[u8]) -> bool
    requires lengths { (length r.now ≡ 4 * sizes.m) × (length x.now ≡ 4 * sizes.n) × (length w.now ≡ 4 * sizes.k) }
    requires r_below { elements_below r.now ≡ true }
    requires in_order { circuit_in_order sizes.m sizes.n sizes.k circuit.now.a.now circuit.now.b.now circuit.now.c.now ≡ true }
    ensures { result ≡ holds (circuit_read circuit.now.a.now circuit.now.b.now circuit.now.c.now) (cast_item sizes.m sizes.n sizes.k [] r.now x.now w.now) (elements sizes.k w.now) }
{
    checks::claims::claim_value(sizes.m, sizes.n, sizes.k, circuit, r, x, w) == 0
}

// Checks 3, 12, 4, 13 and 11, after check 2.
fn verdict(
    sizes: Sizes,
    points: &[u8],
    circuit: &Circuit<'_>,
    r: &[u8],
    x: &[u8],
    w: &[u8],
) -> Result<(), Refusal>
    requires { (points_fit sizes.k points.now ≡ true) × (length r.now ≡ 4 * sizes.m) × (length x.now ≡ 4 * sizes.n) × (length w.now ≡ 4 * sizes.k) }
    ensures { answer_of result ≡ answer (check 3 (circuit_below circuit.now.a.now circuit.now.b.now circuit.now.c.now && elements_below r.now && elements_below x.now && elements_below w.now) ∷ check 12 (points_differ points.now) ∷ check 4 (circuit_in_order sizes.m sizes.n sizes.k circuit.now.a.now circuit.now.b.now circuit.now.c.now) ∷ check 13 (leading_one fp (elements sizes.n x.now)) ∷ check 11 (holds (circuit_read circuit.now.a.now circuit.now.b.now circuit.now.c.now) (cast_item sizes.m sizes.n sizes.k [] r.now x.now w.now) (elements sizes.k w.now)) ∷ []) }
{
    let below = checks::elements::circuit_below(circuit)
        & checks::elements::elements_below(r)
        & checks::elements::elements_below(x)
        & checks::elements::elements_below(w);
    ensure(below, Refusal::Numbers)?;
    ensure(checks::points::differ(sizes.k, points), Refusal::Points)?;
    ensure(
        checks::order::circuit_in_order(sizes, circuit),
        Refusal::Entries,
    )?;
    ensure(
        checks::leading::leading_one(sizes.n, x),
        Refusal::LeadingOne,
    )?;
    ensure(holds(sizes, circuit, r, x, w), Refusal::Claims)
}

// The numbers of the new item: 0, those of r and those of x.
fn collect(sizes: Sizes, r: &[u8], x: &[u8], values: &mut [u32])
    requires { (length r.now ≡ 4 * sizes.m) × (length x.now ≡ 4 * sizes.n) × (length values.old ≡ 1 + sizes.m + sizes.n) }
    ensures { values.new ≡ 0 ∷ (numbers r.now ++ numbers x.now) }
{
    let start = 1 + sizes.m;
    values[0] = 0;
    numbers::load(r, &mut values[1..start]);
    numbers::load(x, &mut values[start..]);
}

// Writes e, r and x of the new item and its root.
fn write(sizes: Sizes, points: &[u8], r: &[u8], x: &[u8], w: &[u8], out: &mut [u8])
    requires lengths { (length r.now ≡ 4 * sizes.m) × (length x.now ≡ 4 * sizes.n) × (length w.now ≡ 4 * sizes.k) × (length out.old ≡ item_size sizes.m sizes.n) × (points_fit sizes.k points.now ≡ true) }
    requires below { (elements_below r.now ≡ true) × (elements_below x.now ≡ true) × (elements_below w.now ≡ true) }
    ensures { out.new ≡ item_bytes (cast_item sizes.m sizes.n sizes.k points.now r.now x.now w.now) }
{
    let root = checks::witness::root(sizes.k, points, w);
    let mut scratch = [0u32; 71];
    let values = &mut scratch[..sizes.item_numbers()];
    collect(sizes, r, x, values);
    item::write(values, root, out);
}

// Runs the checks in their order, and writes the new item.
pub fn cast(
    m: u32,
    n: u32,
    k: u32,
    points: &[u8],
    a: &[u8],
    b: &[u8],
    c: &[u8],
    r: &[u8],
    x: &[u8],
    w: &[u8],
    item: &mut [u8],
) -> Result<(), Refusal>
    ensures answer { answer_of result ≡ (cast m n k points.now a.now b.now c.now r.now x.now w.now item.old).answer }
    ensures item { item.new ≡ (cast m n k points.now a.now b.now c.now r.now x.now w.now item.old).item }
{
    let circuit = Circuit { a, b, c };
    let sizes = sizes(m, n, k, points, &circuit, r, x, w, item).ok_or(Refusal::Sizes)?;
    verdict(sizes, points, &circuit, r, x, w)?;
    write(sizes, points, r, x, w, item);
    Ok(())
}
