// The calls and the sheet reader, which verdicts_c exports to C. Each tests its own input and is refused by the first check that fails; a refusal writes
// nothing. Verifying counts blocks too.
#![tactic(auto)]

ghost use Rattle.std.specs.Prelude.{◌≡◌};
ghost use Rattle.theory.specs.Checks.{written};
ghost use Rattle.checks.specs.Refusals.{answer_of};
ghost use Rattle.theory.specs.Fp.{encode, cast, quotient, fold, «open», interleave, verify, decide};
ghost use Rattle.sheet.specs.Reading.{read_sheet, sizes_of};

pub mod drawing;

use checks::refusal::Refusal;
use verifier::verify::Verified;

// Writes the codeword of a witness and its root. Checks 2, 3 and 12.
pub fn lomvuze_encode(
    k: u32,
    points: &[u8],
    w: &[u8],
    code: &mut [u8],
    root: &mut [u8],
) -> Result<(), Refusal>
    ensures answer { answer_of result ≡ (encode k points.now w.now code.old root.old).answer }
    ensures code { code.new ≡ (encode k points.now w.now code.old root.old).code }
    ensures root { root.new ≡ (encode k points.now w.now code.old root.old).root }
{
    encoder::encode::encode(k, points, w, code, root)
}

// Writes the item of an instance: r as lent, e 0, the root of the witness. Checks 2, 3, 12, 4, 13 and 11.
pub fn lomvuze_cast(
    m: u32,
    n: u32,
    k: u32,
    points: &[u8],
    a: &[u8],
    b: &[u8],
    c: &[u8],
    r: &[u8],
    x: &[u8],
    w: &[u8],
    item: &mut [u8],
) -> Result<(), Refusal>
    ensures answer { answer_of result ≡ (cast m n k points.now a.now b.now c.now r.now x.now w.now item.old).answer }
    ensures item { item.new ≡ (cast m n k points.now a.now b.now c.now r.now x.now w.now item.old).item }
{
    decider::cast::cast(m, n, k, points, a, b, c, r, x, w, item)
}

// Writes the quotient of a list of items with their witnesses. Checks 2, 3, 12, 4, 13, 10 and 11.
pub fn lomvuze_quotient(
    m: u32,
    n: u32,
    k: u32,
    l: u32,
    points: &[u8],
    a: &[u8],
    b: &[u8],
    c: &[u8],
    items: &[u8],
    wits: &[u8],
    out: &mut [u8],
) -> Result<(), Refusal>
    ensures answer { answer_of result ≡ (quotient m n k l points.now a.now b.now c.now items.now wits.now out.old).answer }
    ensures quotient { out.new ≡ (quotient m n k l points.now a.now b.now c.now items.now wits.now out.old).quotient }
{
    prover::quotient::quotient(m, n, k, l, points, a, b, c, items, wits, out)
}

// Writes the quotient, the new item and the new witness at a challenge. Checks 2, 3, 12, 4, 13, 5, 10 and 11.
pub fn lomvuze_fold(
    m: u32,
    n: u32,
    k: u32,
    l: u32,
    challenge: u32,
    points: &[u8],
    a: &[u8],
    b: &[u8],
    c: &[u8],
    items: &[u8],
    wits: &[u8],
    quotient: &mut [u8],
    item: &mut [u8],
    wit: &mut [u8],
) -> Result<(), Refusal>
    ensures answer { answer_of result ≡ (fold m n k l challenge points.now a.now b.now c.now items.now wits.now quotient.old item.old wit.old).answer }
    ensures quotient { quotient.new ≡ (fold m n k l challenge points.now a.now b.now c.now items.now wits.now quotient.old item.old wit.old).quotient }
    ensures item { item.new ≡ (fold m n k l challenge points.now a.now b.now c.now items.now wits.now quotient.old item.old wit.old).item }
    ensures wit { wit.new ≡ (fold m n k l challenge points.now a.now b.now c.now items.now wits.now quotient.old item.old wit.old).wit }
{
    prover::folding::fold(
        m, n, k, l, challenge, points, a, b, c, items, wits, quotient, item, wit,
    )
}

// Writes the openings of a witness at a list of positions. Checks 2, 3, 12 and 6.
pub fn lomvuze_open(
    k: u32,
    t: u32,
    points: &[u8],
    w: &[u8],
    positions: &[u8],
    openings: &mut [u8],
) -> Result<(), Refusal>
    ensures answer { answer_of result ≡ («open» k t points.now w.now positions.now openings.old).answer }
    ensures openings { openings.new ≡ («open» k t points.now w.now positions.now openings.old).openings }
{
    encoder::open::open(k, t, points, w, positions, openings)
}

// Writes the openings of l + 1 witnesses, the new one's last, in the order in which lomvuze_verify reads them. Check 2.
pub fn lomvuze_interleave(
    k: u32,
    l: u32,
    t: u32,
    opened: &[u8],
    openings: &mut [u8],
) -> Result<(), Refusal>
    ensures answer { answer_of result ≡ (interleave k l t opened.now openings.old).answer }
    ensures openings { openings.new ≡ (interleave k l t opened.now openings.old).openings }
{
    encoder::interleave::interleave(k, l, t, opened, openings)
}

// Verifies a fold, and counts the SHA-256 blocks that were processed. Checks 2, 3, 13 and 5 to 9.
pub fn lomvuze_verify(
    m: u32,
    n: u32,
    k: u32,
    l: u32,
    t: u32,
    challenge: u32,
    items: &[u8],
    positions: &[u8],
    quotient: &[u8],
    item: &[u8],
    openings: &[u8],
) -> Verified
    ensures verdict { answer_of result.verdict ≡ (verify m n k l t challenge items.now positions.now quotient.now item.now openings.now).verdict }
    ensures blocks { result.blocks ≡ (verify m n k l t challenge items.now positions.now quotient.now item.now openings.now).blocks }
{
    verifier::verify::verify(
        m, n, k, l, t, challenge, items, positions, quotient, item, openings,
    )
}

// Decides an item with its witness. Checks 2, 3, 12, 4, 13, 10 and 11.
pub fn lomvuze_decide(
    m: u32,
    n: u32,
    k: u32,
    points: &[u8],
    a: &[u8],
    b: &[u8],
    c: &[u8],
    item: &[u8],
    wit: &[u8],
) -> Result<(), Refusal>
    ensures { answer_of result ≡ decide m n k points.now a.now b.now c.now item.now wit.now }
{
    decider::decide::decide(m, n, k, points, a, b, c, item, wit)
}

// Reads a sheet into buffers of the greatest lengths; sizes gets m, n, k, the entries of A, B and C, and the count of pairs. Checks 1 to 4 and 13.
pub fn lomvuze_read_sheet(
    sheet: &[u8],
    a: &mut [u8],
    b: &mut [u8],
    c: &mut [u8],
    items: &mut [u8],
    wits: &mut [u8],
    sizes: &mut [u32; 7],
) -> Result<(), Refusal>
    ensures answer { answer_of result ≡ (read_sheet sheet.now a.old b.old c.old items.old wits.old).result.answer }
    ensures sizes { sizes.new ≡ written (answer_of result) (sizes_of (read_sheet sheet.now a.old b.old c.old items.old wits.old).result) sizes.old }
    ensures a { a.new ≡ (read_sheet sheet.now a.old b.old c.old items.old wits.old).a }
    ensures b { b.new ≡ (read_sheet sheet.now a.old b.old c.old items.old wits.old).b }
    ensures c { c.new ≡ (read_sheet sheet.now a.old b.old c.old items.old wits.old).c }
    ensures items { items.new ≡ (read_sheet sheet.now a.old b.old c.old items.old wits.old).items }
    ensures wits { wits.new ≡ (read_sheet sheet.now a.old b.old c.old items.old wits.old).wits }
{
    let r = sheet::read::read(sheet, a, b, c, items, wits)?;
    *sizes = [
        r.sizes.m as u32,
        r.sizes.n as u32,
        r.sizes.k as u32,
        r.a as u32,
        r.b as u32,
        r.c as u32,
        r.pairs as u32,
    ];
    Ok(())
}
