// The three calls that draw by hash.
ghost use Rattle.std.specs.Prelude.{◌≡◌};
ghost use Rattle.checks.specs.Refusals.{answer_of};
ghost use Rattle.draw.specs.Draw.{draw_challenge, draw_positions, draw_r};

use checks::refusal::Refusal;

// Writes the seed of items and quotient, and the challenge drawn from it. Checks 2, 3 and 13.
pub fn lomvuze_draw_challenge(
    m: u32,
    n: u32,
    k: u32,
    l: u32,
    items: &[u8],
    quotient: &[u8],
    seed: &mut [u8],
    challenge: &mut [u8],
) -> Result<(), Refusal>
    ensures answer { answer_of result ≡ (draw_challenge m n k l items.now quotient.now seed.old challenge.old).answer }
    ensures seed { seed.new ≡ (draw_challenge m n k l items.now quotient.now seed.old challenge.old).seed }
    ensures challenge { challenge.new ≡ (draw_challenge m n k l items.now quotient.now seed.old challenge.old).challenge }
{
    draw::challenge::draw_challenge(m, n, k, l, items, quotient, seed, challenge)
}

// Writes t positions, drawn from seed, challenge and the root of the new item. Checks 2 and 5.
pub fn lomvuze_draw_positions(
    k: u32,
    l: u32,
    t: u32,
    challenge: u32,
    seed: &[u8],
    root: &[u8],
    positions: &mut [u8],
) -> Result<(), Refusal>
    ensures answer { answer_of result ≡ (draw_positions k l t challenge seed.now root.now positions.old).answer }
    ensures positions { positions.new ≡ (draw_positions k l t challenge seed.now root.now positions.old).positions }
{
    draw::positions::draw_positions(k, l, t, challenge, seed, root, positions)
}

// Writes r for casting, drawn from root and x. Checks 2, 3 and 13.
pub fn lomvuze_draw_r(m: u32, n: u32, root: &[u8], x: &[u8], r: &mut [u8]) -> Result<(), Refusal>
    ensures answer { answer_of result ≡ (draw_r m n root.now x.now r.old).answer }
    ensures r { r.new ≡ (draw_r m n root.now x.now r.old).r }
{
    draw::r::draw_r(m, n, root, x, r)
}
