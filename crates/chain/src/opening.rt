// Opening each item's witness and the new one, each into its part of a buffer.
ghost use Rattle.std.specs.Prelude.{◌≡◌, suc, ◌+◌, ◌*◌, ◌≤◌, length};
ghost use Rattle.algebra.specs.Lists.{build};
ghost use Rattle.tree.specs.Layout.{part};
ghost use Rattle.theory.specs.Fp.{«open»};
ghost use Rattle.checks.specs.Refusals.{answer_of};
ghost use Rattle.chain.specs.Answers.{first_refusal};
ghost use Rattle.encoder.specs.Parts.{replaced, Filled};
ghost use Rattle.chain.specs.Chained.{open_item, open_into};

use checks::refusal::Refusal;

// Opens a witness into the part of size bytes at a place.
fn open_part(
    k: u32,
    t: u32,
    points: &[u8],
    w: &[u8],
    positions: &[u8],
    opened: &mut [u8],
    at: usize,
    size: usize,
) -> Result<(), Refusal>
    requires { at + size ≤ length opened.old }
    ensures value { answer_of result ≡ («open» k t points.now w.now positions.now (part opened.old at size)).answer }
    ensures opened_after { opened.new ≡ replaced opened.old at size («open» k t points.now w.now positions.now (part opened.old at size)).openings }
{
    verdicts::lomvuze_open(k, t, points, w, positions, &mut opened[at..at + size])
}

// Opens the witnesses of l items, each into its part.
fn open_list(
    k: u32,
    l: usize,
    t: u32,
    points: &[u8],
    wits: &[u8],
    positions: &[u8],
    opened: &mut [u8],
    size: usize,
) -> Result<(), Refusal>
    requires { (length wits.now ≡ l * (4 * k)) × (l * size ≤ length opened.old) }
    ensures value { answer_of result ≡ first_refusal (build l (λ i. (open_item k t size points.now wits.now positions.now opened.old i).answer)) }
    ensures filled { Filled size (λ i. (open_item k t size points.now wits.now positions.now opened.old i).openings) opened.old l opened.new }
{
    let width = 4 * k as usize;
    let mut verdict = Ok(());
    for i in 0..l {
        let start = i * width;
        let next = open_part(
            k,
            t,
            points,
            &wits[start..start + width],
            positions,
            opened,
            i * size,
            size,
        );
        verdict = verdict.and(next);
    }
    verdict
}

// Opens the witnesses of l items and the new witness, each into its part. They fill the buffer.
pub fn open_all(
    k: u32,
    l: usize,
    t: u32,
    points: &[u8],
    wits: &[u8],
    wit: &[u8],
    positions: &[u8],
    opened: &mut [u8],
    size: usize,
) -> Result<(), Refusal>
    requires { (length wits.now ≡ l * (4 * k)) × (length opened.old ≡ suc l * size) }
    ensures value { answer_of result ≡ first_refusal (build (suc l) (λ i. (open_into k t l size points.now wits.now wit.now positions.now opened.old i).answer)) }
    ensures filled { Filled size (λ i. (open_into k t l size points.now wits.now wit.now positions.now opened.old i).openings) opened.old (suc l) opened.new }
{
    let verdict = open_list(k, l, t, points, wits, positions, opened, size);
    let next = open_part(k, t, points, wit, positions, opened, l * size, size);
    verdict.and(next)
}
