// Drawing positions from seed, challenge and new root. Checks 2 and 5.
ghost use Rattle.std.specs.Prelude.{◌≡◌, true, ◌*◌, ◌≤◌, length};
ghost use Rattle.algebra.specs.Lists.{build};
ghost use Rattle.numbers.specs.Numbers.{bytes};
ghost use Rattle.code.specs.Points.{is_witness_count};
ghost use Rattle.theory.specs.Checks.{answer};
ghost use Rattle.checks.specs.Refusals.{answer_of};
ghost use Rattle.draw.specs.Draw.{position_of, draw_positions_fits, draw_positions_checks, draw_positions};

use checks::refusal::{Refusal, ensure};
use running::Running;

// Check 2.
fn fits(k: u32, l: u32, t: u32, seed: &[u8], root: &[u8], positions: &[u8]) -> bool
    ensures { result ≡ draw_positions_fits k l t seed.now root.now positions.now }
{
    if !code::is_witness_count(k) {
        return false;
    }
    checks::sizes::item_count_fits(l)
        & checks::sizes::position_count_fits(k, t)
        & (seed.len() == 32)
        & (root.len() == 32)
        & (positions.len() == 4 * t as usize)
}

// Checks 2 and 5, in this order.
fn verdict(
    k: u32,
    l: u32,
    t: u32,
    challenge: u32,
    seed: &[u8],
    root: &[u8],
    positions: &[u8],
) -> Result<(), Refusal>
    ensures { answer_of result ≡ answer (draw_positions_checks k l t challenge seed.now root.now positions.now) }
{
    ensure(fits(k, l, t, seed, root, positions), Refusal::Sizes)?;
    ensure(
        checks::sizes::challenge_fits(l, challenge),
        Refusal::Challenge,
    )
}

// Writes t positions: what they have in common is fed in once.
fn write(k: u32, t: usize, challenge: u32, seed: &[u8], root: &[u8], positions: &mut [u8])
    requires { (is_witness_count k ≡ true) × (t ≤ 256) × (length seed.now ≡ 32) × (length root.now ≡ 32) × (length positions.old ≡ 4 * t) }
    ensures { positions.new ≡ bytes (build t (position_of k seed.now challenge root.now)) }
{
    let common = Running::new()
        .feed(&[0x04])
        .feed(seed)
        .feed(&challenge.to_le_bytes())
        .feed(root);
    for j in 0..t {
        let d = common.feed(&(j as u32).to_le_bytes()).digest();
        numbers::put(positions, j, numbers::get(&d, 0) % (4 * k));
    }
}

// Runs checks 2 and 5, and writes t positions.
pub fn draw_positions(
    k: u32,
    l: u32,
    t: u32,
    challenge: u32,
    seed: &[u8],
    root: &[u8],
    positions: &mut [u8],
) -> Result<(), Refusal>
    ensures answer { answer_of result ≡ (draw_positions k l t challenge seed.now root.now positions.old).answer }
    ensures positions { positions.new ≡ (draw_positions k l t challenge seed.now root.now positions.old).positions }
{
    verdict(k, l, t, challenge, seed, root, positions)?;
    write(k, t as usize, challenge, seed, root, positions);
    Ok(())
}
