// The chain of calls of paper 01's first statement, in lent buffers: folding, an opening for each witness, interleaving them, verifying,
// deciding.
#![tactic(auto)]

ghost use Rattle.std.specs.Prelude.{◌≡◌, true, suc, ◌*◌, length};
ghost use Rattle.algebra.specs.Lists.{build, concat_to};
ghost use Rattle.code.specs.Points.{depth};
ghost use Rattle.theory.specs.Checks.{written};
ghost use Rattle.theory.specs.Statements.{Honest, PermittedChallenge, PermittedPositions};
ghost use Rattle.theory.specs.Fp.{fp, in_order, interleave_fits, fold_outputs_fit, verify, decide};
ghost use Rattle.checks.specs.Refusals.{answer_of};
ghost use Rattle.chain.specs.Answers.{first_of, first_refusal};
ghost use Rattle.chain.specs.Chained.{opened_size, open_into, chain};

mod opening;

use checks::refusal::{Refusal, ensure};

// Opens each witness into its part of opened and, where nothing is refused, interleaves the openings.
fn show(
    k: u32,
    l: u32,
    t: u32,
    points: &[u8],
    wits: &[u8],
    wit: &[u8],
    positions: &[u8],
    opened: &mut [u8],
    openings: &mut [u8],
) -> Result<(), Refusal>
    requires { (length wits.now ≡ l * (4 * k)) × (interleave_fits k l t opened.old openings.old ≡ true) }
    ensures value { answer_of result ≡ first_refusal (build (suc l) (λ i. (open_into k t l (opened_size k t) points.now wits.now wit.now positions.now opened.old i).answer)) }
    ensures opened_after { opened.new ≡ concat_to (suc l) (λ i. (open_into k t l (opened_size k t) points.now wits.now wit.now positions.now opened.old i).openings) }
    ensures openings_after { openings.new ≡ written (answer_of result) (in_order (depth k) t l (λ i. (open_into k t l (opened_size k t) points.now wits.now wit.now positions.now opened.old i).openings)) openings.old }
{
    let width = t as usize * encoder::open::opening_size(k as usize);
    opening::open_all(
        k, l as usize, t, points, wits, wit, positions, opened, width,
    )?;
    verdicts::lomvuze_interleave(k, l, t, opened, openings)
}

// Verifies the fold, and decides the new item.
fn verify_and_decide(
    m: u32,
    n: u32,
    k: u32,
    l: u32,
    t: u32,
    challenge: u32,
    points: &[u8],
    a: &[u8],
    b: &[u8],
    c: &[u8],
    items: &[u8],
    positions: &[u8],
    quotient: &[u8],
    item: &[u8],
    wit: &[u8],
    openings: &[u8],
) -> Result<(), Refusal>
    ensures { answer_of result ≡ first_of (verify m n k l t challenge items.now positions.now quotient.now item.now openings.now).verdict (decide m n k points.now a.now b.now c.now item.now wit.now) }
{
    let verified = verdicts::lomvuze_verify(
        m, n, k, l, t, challenge, items, positions, quotient, item, openings,
    );
    verified.verdict?;
    verdicts::lomvuze_decide(m, n, k, points, a, b, c, item, wit)
}

// Folds the items, opens every witness, verifies and decides: the first refusal, if there is one.
pub fn chain(
    m: u32,
    n: u32,
    k: u32,
    l: u32,
    t: u32,
    challenge: u32,
    points: &[u8],
    a: &[u8],
    b: &[u8],
    c: &[u8],
    items: &[u8],
    wits: &[u8],
    positions: &[u8],
    quotient: &mut [u8],
    item: &mut [u8],
    wit: &mut [u8],
    opened: &mut [u8],
    openings: &mut [u8],
) -> Result<(), Refusal>
    ensures honest { Honest fp m n k l points.now a.now b.now c.now items.now wits.now → PermittedChallenge fp l challenge → PermittedPositions k t positions.now → fold_outputs_fit m n k l quotient.old item.old wit.old ≡ true → interleave_fits k l t opened.old openings.old ≡ true → result ≡ Ok tt }
    ensures answer { answer_of result ≡ (chain m n k l t challenge points.now a.now b.now c.now items.now wits.now positions.now quotient.old item.old wit.old opened.old openings.old).answer }
    ensures quotient { quotient.new ≡ (chain m n k l t challenge points.now a.now b.now c.now items.now wits.now positions.now quotient.old item.old wit.old opened.old openings.old).quotient }
    ensures item { item.new ≡ (chain m n k l t challenge points.now a.now b.now c.now items.now wits.now positions.now quotient.old item.old wit.old opened.old openings.old).item }
    ensures wit { wit.new ≡ (chain m n k l t challenge points.now a.now b.now c.now items.now wits.now positions.now quotient.old item.old wit.old opened.old openings.old).wit }
    ensures opened { opened.new ≡ (chain m n k l t challenge points.now a.now b.now c.now items.now wits.now positions.now quotient.old item.old wit.old opened.old openings.old).opened }
    ensures openings { openings.new ≡ (chain m n k l t challenge points.now a.now b.now c.now items.now wits.now positions.now quotient.old item.old wit.old opened.old openings.old).openings }
{
    ensure(
        encoder::interleave::fits(k, l, t, opened, openings),
        Refusal::Sizes,
    )?;
    verdicts::lomvuze_fold(
        m, n, k, l, challenge, points, a, b, c, items, wits, quotient, item, wit,
    )?;
    show(k, l, t, points, wits, wit, positions, opened, openings)?;
    verify_and_decide(
        m, n, k, l, t, challenge, points, a, b, c, items, positions, quotient, item, wit, openings,
    )
}
