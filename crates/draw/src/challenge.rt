// Drawing a challenge from items and quotient: writes the seed too. Checks 2, 3 and 13.
ghost use Rattle.std.specs.Prelude.{◌≡◌, true, false, ◌&&◌, MatchOption, ◌*◌, ◌≤◌, length};
ghost use Rattle.numbers.specs.Numbers.{bytes4};
ghost use Rattle.theory.specs.Checks.{answer};
ghost use Rattle.theory.specs.Sizes.{elements_below};
ghost use Rattle.theory.specs.Fp.{item_size, items_below};
ghost use Rattle.checks.specs.Refusals.{answer_of};
ghost use Rattle.draw.specs.Draw.{seed_of, challenge_of, draw_challenge_fits, draw_challenge_checks, draw_challenge};

use crate::hashed;
use checks::refusal::{Refusal, ensure};
use checks::{elements, leading};
use r1cs::sizes::Sizes;
use running::Running;

// Check 2, which gives the sizes.
fn fits(
    m: u32,
    n: u32,
    k: u32,
    l: u32,
    items: &[u8],
    quotient: &[u8],
    seed: &[u8],
    challenge: &[u8],
) -> Option<Sizes>
    ensures { MatchOption result (draw_challenge_fits m n k l items.now quotient.now seed.now challenge.now ≡ false) (λ s. (draw_challenge_fits m n k l items.now quotient.now seed.now challenge.now ≡ true) × (s.m ≡ m) × (s.n ≡ n) × (length items.now ≡ l * item_size s.m s.n)) }
{
    let sizes = Sizes::new(m, n, k)?;
    if !checks::sizes::item_count_fits(l) {
        return None;
    }
    let l = l as usize;
    let fits = (items.len() == l * sizes.item_size())
        & (quotient.len() == 4 * sizes.quotient_size(l))
        & (seed.len() == 32)
        & (challenge.len() == 4);
    if fits { Some(sizes) } else { None }
}

// Check 3.
fn below(sizes: Sizes, l: usize, items: &[u8], quotient: &[u8]) -> bool
    requires { length items.now ≡ l * item_size sizes.m sizes.n }
    ensures { result ≡ (items_below sizes.m sizes.n l items.now && elements_below quotient.now) }
{
    elements::items_below(sizes.item_numbers(), sizes.item_size(), l, items)
        & elements::elements_below(quotient)
}

// Checks 2, 3 and 13, in this order.
fn verdict(
    m: u32,
    n: u32,
    k: u32,
    l: u32,
    items: &[u8],
    quotient: &[u8],
    seed: &[u8],
    challenge: &[u8],
) -> Result<(), Refusal>
    ensures { answer_of result ≡ answer (draw_challenge_checks m n k l items.now quotient.now seed.now challenge.now) }
{
    let sizes = fits(m, n, k, l, items, quotient, seed, challenge).ok_or(Refusal::Sizes)?;
    let below = below(sizes, l as usize, items, quotient);
    ensure(below, Refusal::Numbers)?;
    ensure(
        leading::items_leading_one(sizes, items),
        Refusal::LeadingOne,
    )
}

// The digest of the byte 0x02, m, n, k, l, the items and the quotient.
fn seed_of(m: u32, n: u32, k: u32, l: u32, items: &[u8], quotient: &[u8]) -> [u8; 32]
    requires { (length items.now ≤ 65536) × (length quotient.now ≤ 65536) }
    ensures { result ≡ seed_of m n k l items.now quotient.now }
{
    Running::new()
        .feed(&[0x02])
        .feed(&m.to_le_bytes())
        .feed(&n.to_le_bytes())
        .feed(&k.to_le_bytes())
        .feed(&l.to_le_bytes())
        .feed(items)
        .feed(quotient)
        .digest()
}

// l and the remainder of eight bytes modulo p - l.
fn challenge_of(l: u32, seed: [u8; 32]) -> u32
    requires { l ≤ 8 }
    ensures { result ≡ challenge_of l seed }
{
    let d = Running::new().feed(&[0x03]).feed(&seed).digest();
    l + hashed::eight(d, field::P - l)
}

// Writes the seed, and the challenge drawn from it.
fn write(
    m: u32,
    n: u32,
    k: u32,
    l: u32,
    items: &[u8],
    quotient: &[u8],
    seed: &mut [u8],
    challenge: &mut [u8],
)
    requires { (l ≤ 8) × (length items.now ≤ 65536) × (length quotient.now ≤ 65536) × (length seed.old ≡ 32) × (length challenge.old ≡ 4) }
    ensures seed_after { seed.new ≡ seed_of m n k l items.now quotient.now }
    ensures challenge_after { challenge.new ≡ bytes4 (challenge_of l (seed_of m n k l items.now quotient.now)) }
{
    let drawn = seed_of(m, n, k, l, items, quotient);
    seed.copy_from_slice(&drawn);
    challenge.copy_from_slice(&challenge_of(l, drawn).to_le_bytes());
}

// Runs checks 2, 3 and 13, and writes the seed and the challenge.
pub fn draw_challenge(
    m: u32,
    n: u32,
    k: u32,
    l: u32,
    items: &[u8],
    quotient: &[u8],
    seed: &mut [u8],
    challenge: &mut [u8],
) -> Result<(), Refusal>
    ensures answer { answer_of result ≡ (draw_challenge m n k l items.now quotient.now seed.old challenge.old).answer }
    ensures seed { seed.new ≡ (draw_challenge m n k l items.now quotient.now seed.old challenge.old).seed }
    ensures challenge { challenge.new ≡ (draw_challenge m n k l items.now quotient.now seed.old challenge.old).challenge }
{
    verdict(m, n, k, l, items, quotient, seed, challenge)?;
    write(m, n, k, l, items, quotient, seed, challenge);
    Ok(())
}
