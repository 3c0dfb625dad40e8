// Checks 8 and 9: each opening leads to its root, and each new opened value is the combination of the items' opened values.
ghost use Rattle.std.specs.Prelude.{◌≡◌, suc, ◌≤◌, ◌<◌};
ghost use Rattle.hash.specs.Sha256.{block_count};
ghost use Rattle.tree.specs.Merkle.{blocks_of};
ghost use Rattle.theory.specs.Checks.{every};
ghost use Rattle.fold.specs.Weights.{lagrange_at};
ghost use Rattle.verifier.specs.Verifying.{root_at, leads, strings_at, strings_reached, value_combines};

use crate::shown::Fold;
use fold::basis::Weights;
use fold::combine;

// The root of item i; the item after the last is the new one.
fn root_at(fold: &Fold<'_>, i: usize) -> [u8; 32]
    requires { i ≤ fold.now.l }
    ensures { result ≡ root_at fold.now i }
{
    let front = fold.sizes.item_front();
    if i < fold.l {
        return tree::digest_at(fold.items, i * fold.sizes.item_size() + front);
    }
    tree::digest_at(fold.item, front)
}

// Whether all that was tested leads to its root, and how many blocks were hashed for it, which count where it doesn't too.
#[derive(Clone, Copy)]
pub struct Tested {
    pub lead: bool,
    pub blocks: u64,
}

// Tests whether the opening of item i at the position with index q leads to the item's root.
fn opening_leads(fold: &Fold<'_>, q: usize, i: usize) -> Tested
    requires { (q < fold.now.t) × (i ≤ fold.now.l) }
    ensures lead { result.lead ≡ leads fold.now q i }
    ensures blocks { result.blocks ≡ blocks_of block_count (strings_at fold.now q i) }
{
    let position = numbers::get(fold.positions, q) as usize;
    let at = (q * (fold.l + 1) + i) * fold.sizes.opening_size();
    let hashed = tree::opening_root(fold.openings, at, fold.sizes.depth(), position);
    let reached = hashed.digest;
    let root = root_at(fold, i);
    Tested {
        lead: check::same(&reached, &root),
        blocks: hashed.blocks,
    }
}

// Check 8: position by position and, within one, item by item, up to and with the first opening that doesn't lead to its root.
pub fn openings_lead(fold: &Fold<'_>) -> Tested
    ensures lead { result.lead ≡ every fold.now.t (λ q. every (suc fold.now.l) (leads fold.now q)) }
    ensures blocks { result.blocks ≡ blocks_of block_count (strings_reached fold.now) }
{
    let mut blocks = 0;
    for q in 0..fold.t {
        for i in 0..fold.l + 1 {
            let tested = opening_leads(fold, q, i);
            blocks += tested.blocks;
            if !tested.lead {
                return Tested {
                    lead: false,
                    blocks,
                };
            }
        }
    }
    Tested { lead: true, blocks }
}

// Check 9 for the position with index q, with the weights at the challenge.
fn value_combines(fold: &Fold<'_>, weights: &Weights, q: usize) -> bool
    requires { (q < fold.now.t) × (weights.now.l ≡ fold.now.l) }
    ensures { result ≡ value_combines (lagrange_at fold.now.l weights.now.at) fold.now q }
{
    let stride = fold.sizes.opening_size() / 4;
    let first = q * (fold.l + 1) * stride;
    let sum = combine::weighted(weights.as_slice(), fold.openings, stride, first);
    numbers::get(fold.openings, first + fold.l * stride) == sum
}

// Check 9: the new opened value at each position is the combination of the items' opened values.
pub fn values_combine(fold: &Fold<'_>, weights: &Weights) -> bool
    requires { weights.now.l ≡ fold.now.l }
    ensures { result ≡ every fold.now.t (value_combines (lagrange_at fold.now.l weights.now.at) fold.now) }
{
    (0..fold.t).all(|q| value_combines(fold, weights, q))
}
