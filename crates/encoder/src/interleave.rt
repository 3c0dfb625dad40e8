// Interleaving: the openings of l + 1 witnesses, taken position by position and, within one, item by item. Check 2.
ghost use Rattle.std.specs.Prelude.{◌≡◌, ◌+◌, ◌*◌, ◌≤◌, length};
ghost use Rattle.algebra.specs.Lists.{concat_to};
ghost use Rattle.theory.specs.Fp.{interleave_fits, interleave};
ghost use Rattle.checks.specs.Refusals.{answer_of};
ghost use Rattle.encoder.specs.Parts.{piece};

use crate::open;
use checks::refusal::{Refusal, ensure};

// Check 2.
pub fn fits(k: u32, l: u32, t: u32, opened: &[u8], openings: &[u8]) -> bool
    ensures { result ≡ interleave_fits k l t opened.now openings.now }
{
    let counted = code::is_witness_count(k) & checks::sizes::item_count_fits(l);
    if !counted {
        return false;
    }
    let size = t as usize * (l as usize + 1) * open::opening_size(k as usize);
    checks::sizes::position_count_fits(k, t) & (opened.len() == size) & (openings.len() == size)
}

// Copies the openings of position q, one from each of the parts of width bytes.
fn row(opened: &[u8], width: usize, count: usize, size: usize, q: usize, out: &mut [u8])
    requires { (length opened.now ≡ count * width) × (q * size + size ≤ width) × (length out.old ≡ count * size) }
    ensures { out.new ≡ concat_to count (λ i. piece opened.now width size i q) }
{
    for i in 0..count {
        let from = i * width + q * size;
        out[i * size..i * size + size].copy_from_slice(&opened[from..from + size]);
    }
}

// Copies the openings of t positions from each of count parts.
fn in_order(opened: &[u8], t: usize, count: usize, size: usize, openings: &mut [u8])
    requires { (length opened.now ≡ count * (t * size)) × (length openings.old ≡ t * (count * size)) × (1 ≤ count) × (count ≤ 9) × (size ≤ 260) }
    ensures { openings.new ≡ concat_to t (λ q. concat_to count (λ i. piece opened.now (t * size) size i q)) }
{
    let width = t * size;
    let wide = count * size;
    for q in 0..t {
        let at = q * wide;
        row(opened, width, count, size, q, &mut openings[at..at + wide]);
    }
}

// Runs check 2, and writes the openings of l + 1 witnesses in the order in which verifying reads them.
pub fn interleave(k: u32, l: u32, t: u32, opened: &[u8], openings: &mut [u8]) -> Result<(), Refusal>
    ensures answer { answer_of result ≡ (interleave k l t opened.now openings.old).answer }
    ensures openings { openings.new ≡ (interleave k l t opened.now openings.old).openings }
{
    ensure(fits(k, l, t, opened, openings), Refusal::Sizes)?;
    let size = open::opening_size(k as usize);
    in_order(opened, t as usize, l as usize + 1, size, openings);
    Ok(())
}
