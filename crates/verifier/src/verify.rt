// Verifying a fold, without circuit and witness. Checks 2, 3, 13 and 5 to 9.
ghost use Rattle.std.specs.Prelude.{◌≡◌, true, cond, [], ◌∷◌, suc, ◌*◌, ◌<◌};
ghost use Rattle.field.specs.BabyBear.{p};
ghost use Rattle.hash.specs.Sha256.{block_count};
ghost use Rattle.tree.specs.Merkle.{blocks_of};
ghost use Rattle.code.specs.Points.{depth};
ghost use Rattle.theory.specs.Checks.{check, answer};
ghost use Rattle.theory.specs.Sizes.{elements_below};
ghost use Rattle.theory.specs.Verify.{reached_strings};
ghost use Rattle.theory.specs.Fp.{fp, item_below, opened_below, combines, openings_lead, values_combine, verify};
ghost use Rattle.checks.specs.Refusals.{answer_of};
ghost use Rattle.verifier.specs.Verifying.{batch, coefficients, shown};

use crate::shown::Fold;
use crate::{combined, input, opened};
use checks::refusal::{Refusal, ensure};
use field::Inverses;
use fold::basis::Weights;

// The verdict, and how many blocks were hashed up to it.
#[derive(Clone, Copy)]
pub struct Verified {
    pub verdict: Result<(), Refusal>,
    pub blocks: u64,
}

// Checks 7 to 9, after the others. Before 8 nothing is hashed.
fn fold_verdict(fold: &Fold<'_>, challenge: u32) -> Verified
    requires { (challenge < p) × (elements_below fold.now.quotient.now ≡ true) × (item_below fold.now.sizes.m fold.now.sizes.n fold.now.item.now ≡ true) × (opened_below (depth fold.now.sizes.k) (fold.now.t * suc fold.now.l) fold.now.openings.now ≡ true) }
    ensures verdict { answer_of result.verdict ≡ answer (check 7 (combines fold.now.sizes.m fold.now.sizes.n (batch fold.now) (coefficients fold.now) (shown fold.now challenge)) ∷ check 8 (openings_lead (batch fold.now) (shown fold.now challenge)) ∷ check 9 (values_combine (batch fold.now) (shown fold.now challenge)) ∷ []) }
    ensures blocks { result.blocks ≡ blocks_of block_count (cond (combines fold.now.sizes.m fold.now.sizes.n (batch fold.now) (coefficients fold.now) (shown fold.now challenge)) (reached_strings fp (batch fold.now) (shown fold.now challenge)) []) }
{
    let weights = Weights::new(fold.l, challenge, &Inverses::new());
    if !combined::combines(fold, &weights) {
        return Verified {
            verdict: Err(Refusal::NewItem),
            blocks: 0,
        };
    }
    let tested = opened::openings_lead(fold);
    let blocks = tested.blocks;
    if !tested.lead {
        return Verified {
            verdict: Err(Refusal::Openings),
            blocks,
        };
    }
    Verified {
        verdict: ensure(opened::values_combine(fold, &weights), Refusal::Values),
        blocks,
    }
}

pub fn verify(
    m: u32,
    n: u32,
    k: u32,
    l: u32,
    t: u32,
    challenge: u32,
    items: &[u8],
    positions: &[u8],
    quotient: &[u8],
    item: &[u8],
    openings: &[u8],
) -> Verified
    ensures verdict { answer_of result.verdict ≡ (verify m n k l t challenge items.now positions.now quotient.now item.now openings.now).verdict }
    ensures blocks { result.blocks ≡ (verify m n k l t challenge items.now positions.now quotient.now item.now openings.now).blocks }
{
    let Some(fold) = Fold::new(m, n, k, l, t, items, positions, quotient, item, openings) else {
        return Verified {
            verdict: Err(Refusal::Sizes),
            blocks: 0,
        };
    };
    if let Err(refusal) = input::verdict(&fold, challenge) {
        return Verified {
            verdict: Err(refusal),
            blocks: 0,
        };
    }
    fold_verdict(&fold, challenge)
}
