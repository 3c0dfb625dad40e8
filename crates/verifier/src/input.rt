// The checks of a fold's numbers by themselves: 2, 3, 13, 5 and 6.
ghost use Rattle.std.specs.Prelude.{◌≡◌, true, false, ◌&&◌, MatchOption, ℕ, suc, ◌*◌};
ghost use Rattle.code.specs.Points.{depth};
ghost use Rattle.theory.specs.Checks.{answer};
ghost use Rattle.theory.specs.Sizes.{elements_below};
ghost use Rattle.theory.specs.Fp.{item_below, items_below, opened_below, verify_fits};
ghost use Rattle.checks.specs.Refusals.{answer_of};
ghost use Rattle.verifier.specs.Verifying.{IsFoldOf, number_checks};

use crate::shown::Fold;
use checks::refusal::{Refusal, ensure};
use checks::{elements, leading, sizes};
use r1cs::sizes::Sizes;

impl<'a> Fold<'a> {
    // Check 2.
    pub fn new(
        m: u32,
        n: u32,
        k: u32,
        l: u32,
        t: u32,
        items: &'a [u8],
        positions: &'a [u8],
        quotient: &'a [u8],
        item: &'a [u8],
        openings: &'a [u8],
    ) -> Option<Fold<'a>>
        ensures { (challenge : ℕ) → MatchOption result (verify_fits m n k l t challenge items.now positions.now quotient.now item.now openings.now ≡ false) (λ fold. (verify_fits m n k l t challenge items.now positions.now quotient.now item.now openings.now ≡ true) × IsFoldOf m n k l t items.now positions.now quotient.now item.now openings.now fold) }
    {
        let sizes = Sizes::new(m, n, k)?;
        if !(sizes::item_count_fits(l) & sizes::position_count_fits(k, t)) {
            return None;
        }
        let l = l as usize;
        let t = t as usize;
        let fits = (items.len() == l * sizes.item_size())
            & (positions.len() == 4 * t)
            & (quotient.len() == 4 * sizes.quotient_size(l))
            & (item.len() == sizes.item_size())
            & (openings.len() == t * (l + 1) * sizes.opening_size());
        if !fits {
            return None;
        }
        Some(Fold {
            sizes,
            l,
            t,
            items,
            positions,
            quotient,
            item,
            openings,
        })
    }
}

// Check 3.
fn below(fold: &Fold<'_>) -> bool
    ensures { result ≡ (items_below fold.now.sizes.m fold.now.sizes.n fold.now.l fold.now.items.now && elements_below fold.now.quotient.now && item_below fold.now.sizes.m fold.now.sizes.n fold.now.item.now && opened_below (depth fold.now.sizes.k) (fold.now.t * suc fold.now.l) fold.now.openings.now) }
{
    let count = fold.sizes.item_numbers();
    let size = fold.sizes.item_size();
    elements::items_below(count, size, fold.l, fold.items)
        & elements::elements_below(fold.quotient)
        & elements::item_below(fold.sizes, fold.item)
        & elements::opened_below(fold.sizes, fold.openings)
}

// Checks 3, 13, 5 and 6, after check 2.
pub fn verdict(fold: &Fold<'_>, challenge: u32) -> Result<(), Refusal>
    ensures { answer_of result ≡ answer (number_checks fold.now challenge) }
{
    ensure(below(fold), Refusal::Numbers)?;
    ensure(
        leading::items_leading_one(fold.sizes, fold.items),
        Refusal::LeadingOne,
    )?;
    ensure(
        sizes::challenge_fits(fold.l as u32, challenge),
        Refusal::Challenge,
    )?;
    ensure(
        sizes::positions_below(fold.sizes.k as u32, fold.positions),
        Refusal::Positions,
    )
}
