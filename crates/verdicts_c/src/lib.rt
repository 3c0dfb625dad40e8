// What C calls: each export calls the function of the same name in verdicts, and gives its verdict as a number, 0 where nothing is refused.
#![tactic(auto)]

ghost use Rattle.std.specs.Prelude.{◌≡◌};
ghost use Rattle.theory.specs.Checks.{written};
ghost use Rattle.theory.specs.Results.{packed};
ghost use Rattle.theory.specs.Fp.{encode, cast, quotient, fold, «open», interleave, verify, decide};
ghost use Rattle.sheet.specs.Reading.{read_sheet, sizes_of};

pub mod drawing;

use checks::refusal::answer;

// Writes the codeword of a witness and its root. Checks 2, 3 and 12.
#[unsafe(no_mangle)]
pub extern "C" fn lomvuze_encode(
    k: u32,
    points: &[u8],
    w: &[u8],
    code: &mut [u8],
    root: &mut [u8],
) -> u32
    ensures answer { result ≡ (encode k points.now w.now code.old root.old).answer }
    ensures code { code.new ≡ (encode k points.now w.now code.old root.old).code }
    ensures root { root.new ≡ (encode k points.now w.now code.old root.old).root }
{
    answer(verdicts::lomvuze_encode(k, points, w, code, root))
}

// Writes the item of an instance: r as lent, e 0, the root of the witness. Checks 2, 3, 12, 4, 13 and 11.
#[unsafe(no_mangle)]
pub extern "C" fn lomvuze_cast(
    m: u32,
    n: u32,
    k: u32,
    points: &[u8],
    a: &[u8],
    b: &[u8],
    c: &[u8],
    r: &[u8],
    x: &[u8],
    w: &[u8],
    item: &mut [u8],
) -> u32
    ensures answer { result ≡ (cast m n k points.now a.now b.now c.now r.now x.now w.now item.old).answer }
    ensures item { item.new ≡ (cast m n k points.now a.now b.now c.now r.now x.now w.now item.old).item }
{
    answer(verdicts::lomvuze_cast(m, n, k, points, a, b, c, r, x, w, item))
}

// Writes the quotient of a list of items with their witnesses. Checks 2, 3, 12, 4, 13, 10 and 11.
#[unsafe(no_mangle)]
pub extern "C" fn lomvuze_quotient(
    m: u32,
    n: u32,
    k: u32,
    l: u32,
    points: &[u8],
    a: &[u8],
    b: &[u8],
    c: &[u8],
    items: &[u8],
    wits: &[u8],
    out: &mut [u8],
) -> u32
    ensures answer { result ≡ (quotient m n k l points.now a.now b.now c.now items.now wits.now out.old).answer }
    ensures quotient { out.new ≡ (quotient m n k l points.now a.now b.now c.now items.now wits.now out.old).quotient }
{
    answer(verdicts::lomvuze_quotient(m, n, k, l, points, a, b, c, items, wits, out))
}

// Writes the quotient, the new item and the new witness at a challenge. Checks 2, 3, 12, 4, 13, 5, 10 and 11.
#[unsafe(no_mangle)]
pub extern "C" fn lomvuze_fold(
    m: u32,
    n: u32,
    k: u32,
    l: u32,
    challenge: u32,
    points: &[u8],
    a: &[u8],
    b: &[u8],
    c: &[u8],
    items: &[u8],
    wits: &[u8],
    quotient: &mut [u8],
    item: &mut [u8],
    wit: &mut [u8],
) -> u32
    ensures answer { result ≡ (fold m n k l challenge points.now a.now b.now c.now items.now wits.now quotient.old item.old wit.old).answer }
    ensures quotient { quotient.new ≡ (fold m n k l challenge points.now a.now b.now c.now items.now wits.now quotient.old item.old wit.old).quotient }
    ensures item { item.new ≡ (fold m n k l challenge points.now a.now b.now c.now items.now wits.now quotient.old item.old wit.old).item }
    ensures wit { wit.new ≡ (fold m n k l challenge points.now a.now b.now c.now items.now wits.now quotient.old item.old wit.old).wit }
{
    answer(verdicts::lomvuze_fold(
        m, n, k, l, challenge, points, a, b, c, items, wits, quotient, item, wit,
    ))
}

// Writes the openings of a witness at a list of positions. Checks 2, 3, 12 and 6.
#[unsafe(no_mangle)]
pub extern "C" fn lomvuze_open(
    k: u32,
    t: u32,
    points: &[u8],
    w: &[u8],
    positions: &[u8],
    openings: &mut [u8],
) -> u32
    ensures answer { result ≡ («open» k t points.now w.now positions.now openings.old).answer }
    ensures openings { openings.new ≡ («open» k t points.now w.now positions.now openings.old).openings }
{
    answer(verdicts::lomvuze_open(k, t, points, w, positions, openings))
}

// Writes the openings of l + 1 witnesses, the new one's last, in the order in which lomvuze_verify reads them. Check 2.
#[unsafe(no_mangle)]
pub extern "C" fn lomvuze_interleave(
    k: u32,
    l: u32,
    t: u32,
    opened: &[u8],
    openings: &mut [u8],
) -> u32
    ensures answer { result ≡ (interleave k l t opened.now openings.old).answer }
    ensures openings { openings.new ≡ (interleave k l t opened.now openings.old).openings }
{
    answer(verdicts::lomvuze_interleave(k, l, t, opened, openings))
}

// Verifies a fold, and returns 64 times the number of SHA-256 blocks that were processed, plus the verdict. Checks 2, 3, 13 and 5 to 9.
#[unsafe(no_mangle)]
pub extern "C" fn lomvuze_verify(
    m: u32,
    n: u32,
    k: u32,
    l: u32,
    t: u32,
    challenge: u32,
    items: &[u8],
    positions: &[u8],
    quotient: &[u8],
    item: &[u8],
    openings: &[u8],
) -> u64
    ensures { result ≡ packed (verify m n k l t challenge items.now positions.now quotient.now item.now openings.now) }
{
    let verified = verdicts::lomvuze_verify(
        m, n, k, l, t, challenge, items, positions, quotient, item, openings,
    );
    64 * verified.blocks + answer(verified.verdict) as u64
}

// Decides an item with its witness. Checks 2, 3, 12, 4, 13, 10 and 11.
#[unsafe(no_mangle)]
pub extern "C" fn lomvuze_decide(
    m: u32,
    n: u32,
    k: u32,
    points: &[u8],
    a: &[u8],
    b: &[u8],
    c: &[u8],
    item: &[u8],
    wit: &[u8],
) -> u32
    ensures { result ≡ decide m n k points.now a.now b.now c.now item.now wit.now }
{
    answer(verdicts::lomvuze_decide(m, n, k, points, a, b, c, item, wit))
}

// Reads a sheet into buffers of the greatest lengths; sizes gets m, n, k, the entries of A, B and C, and the count of pairs. Checks 1 to 4 and 13.
#[unsafe(no_mangle)]
pub extern "C" fn lomvuze_read_sheet(
    sheet: &[u8],
    a: &mut [u8],
    b: &mut [u8],
    c: &mut [u8],
    items: &mut [u8],
    wits: &mut [u8],
    sizes: &mut [u32; 7],
) -> u32
    ensures answer { result ≡ (read_sheet sheet.now a.old b.old c.old items.old wits.old).result.answer }
    ensures sizes { sizes.new ≡ written result (sizes_of (read_sheet sheet.now a.old b.old c.old items.old wits.old).result) sizes.old }
    ensures a { a.new ≡ (read_sheet sheet.now a.old b.old c.old items.old wits.old).a }
    ensures b { b.new ≡ (read_sheet sheet.now a.old b.old c.old items.old wits.old).b }
    ensures c { c.new ≡ (read_sheet sheet.now a.old b.old c.old items.old wits.old).c }
    ensures items { items.new ≡ (read_sheet sheet.now a.old b.old c.old items.old wits.old).items }
    ensures wits { wits.new ≡ (read_sheet sheet.now a.old b.old c.old items.old wits.old).wits }
{
    answer(verdicts::lomvuze_read_sheet(sheet, a, b, c, items, wits, sizes))
}
