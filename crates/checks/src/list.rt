// A circuit, and a list of items with their witnesses: the checks that quotient, fold and decide share, and a sheet.
ghost use Rattle.std.specs.Prelude.{◌≡◌, true, false, ◌*◌, length, MatchOption};
ghost use Rattle.theory.specs.Checks.{answer};
ghost use Rattle.theory.specs.Sizes.{points_fit, elements_below, circuit_in_order};
ghost use Rattle.theory.specs.Fp.{item_size, items_below, list_fits, list_below, list_checks, all_match, all_hold, claim_checks};
ghost use Rattle.checks.specs.Refusals.{answer_of};
ghost use Rattle.checks.specs.Parts.{IsListOf};

use crate::refusal::{Refusal, ensure};
use crate::{claims, elements, leading, order, points, sizes};
use r1cs::circuit::Circuit;
use r1cs::list::List;
use r1cs::sizes::Sizes;

// Check 2: sizes, counts, and the lengths of circuit, items and witnesses.
pub fn new<'a>(
    m: u32,
    n: u32,
    k: u32,
    l: u32,
    points: &[u8],
    circuit: &Circuit<'a>,
    items: &'a [u8],
    wits: &'a [u8],
) -> Option<List<'a>>
    ensures { MatchOption result (list_fits m n k l points.now circuit.now.a.now circuit.now.b.now circuit.now.c.now items.now wits.now ≡ false) (λ list. (list_fits m n k l points.now circuit.now.a.now circuit.now.b.now circuit.now.c.now items.now wits.now ≡ true) × IsListOf m n k l circuit.now.a.now circuit.now.b.now circuit.now.c.now items.now wits.now list) }
{
    let sizes = Sizes::new(m, n, k)?;
    let count = l as usize;
    let fits = sizes::item_count_fits(l)
        & points::fits(sizes.k, points)
        & sizes::circuit_fits(circuit)
        & (items.len() == count * sizes.item_size())
        & (wits.len() == count * (4 * sizes.k));
    if !fits {
        return None;
    }
    Some(List {
        sizes,
        l: count,
        circuit: *circuit,
        items,
        wits,
    })
}

// Check 3.
fn below(sizes: Sizes, l: usize, circuit: &Circuit<'_>, items: &[u8], wits: &[u8]) -> bool
    requires { length items.now ≡ l * item_size sizes.m sizes.n }
    ensures { result ≡ list_below sizes.m sizes.n l circuit.now.a.now circuit.now.b.now circuit.now.c.now items.now wits.now }
{
    elements::circuit_below(circuit)
        & elements::items_below(sizes.item_numbers(), sizes.item_size(), l, items)
        & elements::elements_below(wits)
}

// Checks 3, 12, 4 and 13 of any number of items, after check 2.
pub fn verdict(
    sizes: Sizes,
    l: usize,
    points: &[u8],
    circuit: &Circuit<'_>,
    items: &[u8],
    wits: &[u8],
) -> Result<(), Refusal>
    requires { (length items.now ≡ l * item_size sizes.m sizes.n) × (length wits.now ≡ l * (4 * sizes.k)) × (points_fit sizes.k points.now ≡ true) }
    ensures { answer_of result ≡ answer (list_checks sizes.m sizes.n sizes.k l points.now circuit.now.a.now circuit.now.b.now circuit.now.c.now items.now wits.now) }
{
    let below = below(sizes, l, circuit, items, wits);
    ensure(below, Refusal::Numbers)?;
    ensure(points::differ(sizes.k, points), Refusal::Points)?;
    ensure(order::circuit_in_order(sizes, circuit), Refusal::Entries)?;
    let leading = leading::items_leading_one(sizes, items);
    ensure(leading, Refusal::LeadingOne)
}

// Check 10.
fn all_match(sizes: Sizes, l: usize, points: &[u8], items: &[u8], wits: &[u8]) -> bool
    requires { (length items.now ≡ l * item_size sizes.m sizes.n) × (length wits.now ≡ l * (4 * sizes.k)) × (elements_below wits.now ≡ true) × (points_fit sizes.k points.now ≡ true) }
    ensures { result ≡ all_match sizes.m sizes.n sizes.k l points.now items.now wits.now }
{
    let front = sizes.item_front();
    claims::all_match(sizes.k, l, sizes.item_size(), front, points, items, wits)
}

// Check 11.
fn all_hold(sizes: Sizes, l: usize, circuit: &Circuit<'_>, items: &[u8], wits: &[u8]) -> bool
    requires lengths { (length items.now ≡ l * item_size sizes.m sizes.n) × (length wits.now ≡ l * (4 * sizes.k)) }
    requires passed { (items_below sizes.m sizes.n l items.now ≡ true) × (circuit_in_order sizes.m sizes.n sizes.k circuit.now.a.now circuit.now.b.now circuit.now.c.now ≡ true) }
    ensures { result ≡ all_hold sizes.m sizes.n sizes.k l circuit.now.a.now circuit.now.b.now circuit.now.c.now items.now wits.now }
{
    let Sizes { m, n, k } = sizes;
    let size = sizes.item_size();
    claims::all_hold(m, n, k, l, size, circuit, items, wits)
}

// Checks 10 and 11, after checks 3, 12, 4 and 13.
pub fn claims(
    sizes: Sizes,
    l: usize,
    points: &[u8],
    circuit: &Circuit<'_>,
    items: &[u8],
    wits: &[u8],
) -> Result<(), Refusal>
    requires lengths { (length items.now ≡ l * item_size sizes.m sizes.n) × (length wits.now ≡ l * (4 * sizes.k)) × (points_fit sizes.k points.now ≡ true) }
    requires passed { answer (list_checks sizes.m sizes.n sizes.k l points.now circuit.now.a.now circuit.now.b.now circuit.now.c.now items.now wits.now) ≡ 0 }
    ensures { answer_of result ≡ answer (claim_checks sizes.m sizes.n sizes.k l points.now circuit.now.a.now circuit.now.b.now circuit.now.c.now items.now wits.now) }
{
    ensure(all_match(sizes, l, points, items, wits), Refusal::Roots)?;
    ensure(all_hold(sizes, l, circuit, items, wits), Refusal::Claims)
}
