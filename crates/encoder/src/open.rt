// Opening: the openings of one witness at a list of positions. Checks 2, 3, 12 and 6.
ghost use Rattle.std.specs.Prelude.{◌≡◌, true, ◌*◌, length};
ghost use Rattle.numbers.specs.Numbers.{numbers};
ghost use Rattle.tree.specs.Layout.{opening_size};
ghost use Rattle.code.specs.Points.{is_witness_count, depth};
ghost use Rattle.theory.specs.Checks.{answer};
ghost use Rattle.theory.specs.Sizes.{points_fit, elements_below, positions_below};
ghost use Rattle.checks.specs.Refusals.{answer_of};
ghost use Rattle.theory.specs.Fp.{elements, open_fits, open_checks, openings_of, «open»};

use checks::refusal::{Refusal, ensure};

// The bytes of an opening, for k alone: opening and interleaving have no m and n, of which `Sizes` would be made.
pub fn opening_size(k: usize) -> usize
    requires { is_witness_count k ≡ true }
    ensures { result ≡ opening_size (depth k) }
{
    4 + 32 * code::depth_of(k)
}

// Check 2.
fn fits(k: u32, t: u32, points: &[u8], w: &[u8], positions: &[u8], openings: &[u8]) -> bool
    ensures { result ≡ open_fits k t points.now w.now positions.now openings.now }
{
    if !code::is_witness_count(k) {
        return false;
    }
    let n = k as usize;
    let count = t as usize;
    let size = opening_size(n);
    checks::sizes::position_count_fits(k, t)
        & checks::points::fits(n, points)
        & (w.len() == 4 * n)
        & (positions.len() == 4 * count)
        & (openings.len() == count * size)
}

// Checks 2, 3, 12 and 6, in this order.
fn verdict(
    k: u32,
    t: u32,
    points: &[u8],
    w: &[u8],
    positions: &[u8],
    openings: &[u8],
) -> Result<(), Refusal>
    ensures { answer_of result ≡ answer (open_checks k t points.now w.now positions.now openings.now) }
{
    ensure(fits(k, t, points, w, positions, openings), Refusal::Sizes)?;
    ensure(checks::elements::elements_below(w), Refusal::Numbers)?;
    ensure(checks::points::differ(k as usize, points), Refusal::Points)?;
    ensure(
        checks::sizes::positions_below(k, positions),
        Refusal::Positions,
    )
}

// Writes the openings.
fn write(k: usize, t: usize, points: &[u8], w: &[u8], positions: &[u8], openings: &mut [u8])
    requires { (is_witness_count k ≡ true) × (length w.now ≡ 4 * k) × (elements_below w.now ≡ true) × (length positions.now ≡ 4 * t) × (positions_below k positions.now ≡ true) × (length openings.old ≡ t * opening_size (depth k)) × (points_fit k points.now ≡ true) }
    ensures { openings.new ≡ openings_of k t points.now (elements k w.now) (numbers positions.now) }
{
    let mut scratch = [0u32; 256];
    let values = &mut scratch[..4 * k];
    checks::witness::codeword(k, points, w, values);
    tree::write_openings(values, code::depth_of(k), positions, openings);
}

// Runs checks 2, 3, 12 and 6, and writes the openings of w at the t positions.
pub fn open(
    k: u32,
    t: u32,
    points: &[u8],
    w: &[u8],
    positions: &[u8],
    openings: &mut [u8],
) -> Result<(), Refusal>
    ensures answer { answer_of result ≡ («open» k t points.now w.now positions.now openings.old).answer }
    ensures openings { openings.new ≡ («open» k t points.now w.now positions.now openings.old).openings }
{
    verdict(k, t, points, w, positions, openings)?;
    write(k as usize, t as usize, points, w, positions, openings);
    Ok(())
}
