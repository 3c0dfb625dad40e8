// Deciding: whether an item matches its witness and holds with it. The checks are those of a list of one item: 2, 3, 12, 4, 13, 10 and 11.
ghost use Rattle.std.specs.Prelude.{◌≡◌};
ghost use Rattle.theory.specs.Fp.{decide};
ghost use Rattle.checks.specs.Refusals.{answer_of};

use checks::list;
use checks::refusal::Refusal;
use r1cs::circuit::Circuit;

pub fn decide(
    m: u32,
    n: u32,
    k: u32,
    points: &[u8],
    a: &[u8],
    b: &[u8],
    c: &[u8],
    item: &[u8],
    wit: &[u8],
) -> Result<(), Refusal>
    ensures { answer_of result ≡ decide m n k points.now a.now b.now c.now item.now wit.now }
{
    let circuit = Circuit { a, b, c };
    let listed = list::new(m, n, k, 1, points, &circuit, item, wit).ok_or(Refusal::Sizes)?;
    let sizes = listed.sizes;
    list::verdict(sizes, 1, points, &circuit, item, wit)?;
    list::claims(sizes, 1, points, &circuit, item, wit)
}
