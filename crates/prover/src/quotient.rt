// The quotient of a list of items with their witnesses. Checks 2, 3, 12, 4, 13, 10 and 11.
ghost use Rattle.std.specs.Prelude.{◌≡◌, true, ◌*◌, length};
ghost use Rattle.theory.specs.Checks.{answer};
ghost use Rattle.theory.specs.Combination.{quotient_size};
ghost use Rattle.theory.specs.Fp.{element_bytes, list_fits, list_quotient, quotient_checks, quotient};
ghost use Rattle.checks.specs.Refusals.{answer_of};
ghost use Rattle.fold.specs.Fits.{Fits};

use checks::refusal::{Refusal, ensure};
use r1cs::circuit::Circuit;
use r1cs::list::List;

// What check 2 asks of the output buffer, and the other checks.
fn verdict(list: &List<'_>, points: &[u8], out: &[u8]) -> Result<(), Refusal>
    requires { list_fits list.now.sizes.m list.now.sizes.n list.now.sizes.k list.now.l points.now list.now.circuit.a.now list.now.circuit.b.now list.now.circuit.c.now list.now.items.now list.now.wits.now ≡ true }
    ensures { answer_of result ≡ answer (quotient_checks list.now.sizes.m list.now.sizes.n list.now.sizes.k list.now.l points.now list.now.circuit.a.now list.now.circuit.b.now list.now.circuit.c.now list.now.items.now list.now.wits.now out.now) }
{
    let size = 4 * list.sizes.quotient_size(list.l);
    ensure(out.len() == size, Refusal::Sizes)?;
    let circuit = &list.circuit;
    checks::list::verdict(list.sizes, list.l, points, circuit, list.items, list.wits)?;
    checks::list::claims(list.sizes, list.l, points, circuit, list.items, list.wits)
}

// Writes the quotient.
fn write(list: &List<'_>, out: &mut [u8])
    requires { Fits list.now.sizes.n list.now.sizes.k list.now.circuit.a.now list.now.circuit.b.now list.now.circuit.c.now × (length out.old ≡ 4 * quotient_size list.now.sizes.m list.now.l) }
    ensures { out.new ≡ element_bytes (list_quotient list.now.sizes.m list.now.sizes.n list.now.sizes.k list.now.l list.now.circuit.a.now list.now.circuit.b.now list.now.circuit.c.now list.now.items.now list.now.wits.now) }
{
    let mut coefficients = [0u32; 49];
    let coefficients = &mut coefficients[..list.sizes.quotient_size(list.l)];
    fold::quotient::quotient(list, coefficients);
    numbers::store(coefficients, out);
}

pub fn quotient(
    m: u32,
    n: u32,
    k: u32,
    l: u32,
    points: &[u8],
    a: &[u8],
    b: &[u8],
    c: &[u8],
    items: &[u8],
    wits: &[u8],
    out: &mut [u8],
) -> Result<(), Refusal>
    ensures answer { answer_of result ≡ (quotient m n k l points.now a.now b.now c.now items.now wits.now out.old).answer }
    ensures quotient { out.new ≡ (quotient m n k l points.now a.now b.now c.now items.now wits.now out.old).quotient }
{
    let circuit = Circuit { a, b, c };
    let list = checks::list::new(m, n, k, l, points, &circuit, items, wits).ok_or(Refusal::Sizes)?;
    verdict(&list, points, out)?;
    write(&list, out);
    Ok(())
}
