// Folding: the quotient, the new item and the new witness at a challenge. Checks 2, 3, 12, 4, 13, 5, 10 and 11.
ghost use Rattle.std.specs.Prelude.{◌≡◌, true, ◌*◌, ◌<◌, length};
ghost use Rattle.field.specs.BabyBear.{p, ofℕ};
ghost use Rattle.theory.specs.Checks.{answer};
ghost use Rattle.theory.specs.Combination.{quotient_size};
ghost use Rattle.theory.specs.Sizes.{points_fit};
ghost use Rattle.theory.specs.Fp.{element_bytes, item_size, item_bytes, list_fits, list_quotient, new_witness, new_item, fold_outputs_fit, fold_checks, fold};
ghost use Rattle.checks.specs.Refusals.{answer_of};
ghost use Rattle.fold.specs.Fits.{Fits};

use crate::new;
use checks::refusal::{Refusal, ensure};
use field::Inverses;
use fold::basis::Weights;
use r1cs::circuit::Circuit;
use r1cs::list::List;

// The lengths of the output buffers.
fn outputs_fit(list: &List<'_>, q: &[u8], item: &[u8], wit: &[u8]) -> bool
    ensures { result ≡ fold_outputs_fit list.now.sizes.m list.now.sizes.n list.now.sizes.k list.now.l q.now item.now wit.now }
{
    let sizes = list.sizes;
    (q.len() == 4 * sizes.quotient_size(list.l))
        & (item.len() == sizes.item_size())
        & (wit.len() == 4 * sizes.k)
}

// What check 2 asks of the output buffers, and the other checks.
fn verdict(
    list: &List<'_>,
    challenge: u32,
    points: &[u8],
    q: &[u8],
    item: &[u8],
    wit: &[u8],
) -> Result<(), Refusal>
    requires { list_fits list.now.sizes.m list.now.sizes.n list.now.sizes.k list.now.l points.now list.now.circuit.a.now list.now.circuit.b.now list.now.circuit.c.now list.now.items.now list.now.wits.now ≡ true }
    ensures { answer_of result ≡ answer (fold_checks list.now.sizes.m list.now.sizes.n list.now.sizes.k list.now.l challenge points.now list.now.circuit.a.now list.now.circuit.b.now list.now.circuit.c.now list.now.items.now list.now.wits.now q.now item.now wit.now) }
{
    ensure(outputs_fit(list, q, item, wit), Refusal::Sizes)?;
    let circuit = &list.circuit;
    checks::list::verdict(list.sizes, list.l, points, circuit, list.items, list.wits)?;
    let permitted = checks::sizes::challenge_fits(list.l as u32, challenge);
    ensure(permitted, Refusal::Challenge)?;
    checks::list::claims(list.sizes, list.l, points, circuit, list.items, list.wits)
}

// Writes the quotient, the new witness and the new item.
fn write(list: &List<'_>, at: u32, points: &[u8], q: &mut [u8], item: &mut [u8], wit: &mut [u8])
    requires fits { Fits list.now.sizes.n list.now.sizes.k list.now.circuit.a.now list.now.circuit.b.now list.now.circuit.c.now × (at < p) × (points_fit list.now.sizes.k points.now ≡ true) }
    requires outputs { (length q.old ≡ 4 * quotient_size list.now.sizes.m list.now.l) × (length item.old ≡ item_size list.now.sizes.m list.now.sizes.n) × (length wit.old ≡ 4 * list.now.sizes.k) }
    ensures q_after { q.new ≡ element_bytes (list_quotient list.now.sizes.m list.now.sizes.n list.now.sizes.k list.now.l list.now.circuit.a.now list.now.circuit.b.now list.now.circuit.c.now list.now.items.now list.now.wits.now) }
    ensures item_after { item.new ≡ item_bytes (new_item list.now.sizes.m list.now.sizes.n list.now.sizes.k list.now.l (ofℕ at) points.now list.now.items.now list.now.wits.now (list_quotient list.now.sizes.m list.now.sizes.n list.now.sizes.k list.now.l list.now.circuit.a.now list.now.circuit.b.now list.now.circuit.c.now list.now.items.now list.now.wits.now)) }
    ensures wit_after { wit.new ≡ element_bytes (new_witness list.now.sizes.k list.now.l (ofℕ at) list.now.wits.now) }
{
    let mut coefficients = [0u32; 49];
    let coefficients = &mut coefficients[..list.sizes.quotient_size(list.l)];
    fold::quotient::quotient(list, coefficients);
    numbers::store(coefficients, q);
    let weights = Weights::new(list.l, at, &Inverses::new());
    new::write_witness(list, &weights, wit);
    new::write_item(list, &weights, points, coefficients, wit, item);
}

pub fn fold(
    m: u32,
    n: u32,
    k: u32,
    l: u32,
    challenge: u32,
    points: &[u8],
    a: &[u8],
    b: &[u8],
    c: &[u8],
    items: &[u8],
    wits: &[u8],
    quotient: &mut [u8],
    item: &mut [u8],
    wit: &mut [u8],
) -> Result<(), Refusal>
    ensures answer { answer_of result ≡ (fold m n k l challenge points.now a.now b.now c.now items.now wits.now quotient.old item.old wit.old).answer }
    ensures quotient { quotient.new ≡ (fold m n k l challenge points.now a.now b.now c.now items.now wits.now quotient.old item.old wit.old).quotient }
    ensures item { item.new ≡ (fold m n k l challenge points.now a.now b.now c.now items.now wits.now quotient.old item.old wit.old).item }
    ensures wit { wit.new ≡ (fold m n k l challenge points.now a.now b.now c.now items.now wits.now quotient.old item.old wit.old).wit }
{
    let circuit = Circuit { a, b, c };
    let list = checks::list::new(m, n, k, l, points, &circuit, items, wits).ok_or(Refusal::Sizes)?;
    verdict(&list, challenge, points, quotient, item, wit)?;
    write(&list, challenge, points, quotient, item, wit);
    Ok(())
}
