// Encoding: writes a witness's codeword and its root. Checks 2, 3 and 12.
ghost use Rattle.std.specs.Prelude.{◌≡◌, true, ◌*◌, length};
ghost use Rattle.code.specs.Points.{is_witness_count};
ghost use Rattle.theory.specs.Checks.{answer};
ghost use Rattle.theory.specs.Sizes.{points_fit, elements_below};
ghost use Rattle.checks.specs.Refusals.{answer_of};
ghost use Rattle.theory.specs.Fp.{codeword_of, witness_root, elements, element_bytes, encode_fits, encode_checks, encode};

use checks::refusal::{Refusal, ensure};

// Check 2.
fn fits(k: u32, points: &[u8], w: &[u8], code: &[u8], root: &[u8]) -> bool
    ensures { result ≡ encode_fits k points.now w.now code.now root.now }
{
    let n = k as usize;
    code::is_witness_count(k)
        & checks::points::fits(n, points)
        & (w.len() == 4 * n)
        & (code.len() == 4 * (4 * n))
        & (root.len() == 32)
}

// Checks 2, 3 and 12, in this order.
fn verdict(k: u32, points: &[u8], w: &[u8], code: &[u8], root: &[u8]) -> Result<(), Refusal>
    ensures { answer_of result ≡ answer (encode_checks k points.now w.now code.now root.now) }
{
    ensure(fits(k, points, w, code, root), Refusal::Sizes)?;
    ensure(checks::elements::elements_below(w), Refusal::Numbers)?;
    ensure(checks::points::differ(k as usize, points), Refusal::Points)
}

// Writes the codeword and the root.
fn write(k: usize, points: &[u8], w: &[u8], code: &mut [u8], root: &mut [u8])
    requires { (is_witness_count k ≡ true) × (length w.now ≡ 4 * k) × (elements_below w.now ≡ true) × (length code.old ≡ 4 * (4 * k)) × (length root.old ≡ 32) × (points_fit k points.now ≡ true) }
    ensures code_after { code.new ≡ element_bytes (codeword_of k points.now (elements k w.now)) }
    ensures root_after { root.new ≡ witness_root k points.now (elements k w.now) }
{
    let mut scratch = [0u32; 256];
    let values = &mut scratch[..4 * k];
    checks::witness::codeword(k, points, w, values);
    numbers::store(values, code);
    let digest = tree::root(values, code::depth_of(k));
    root.copy_from_slice(&digest);
}

// Runs checks 2, 3 and 12, and writes the codeword of w and its root.
pub fn encode(
    k: u32,
    points: &[u8],
    w: &[u8],
    code: &mut [u8],
    root: &mut [u8],
) -> Result<(), Refusal>
    ensures answer { answer_of result ≡ (encode k points.now w.now code.old root.old).answer }
    ensures code { code.new ≡ (encode k points.now w.now code.old root.old).code }
    ensures root { root.new ≡ (encode k points.now w.now code.old root.old).root }
{
    verdict(k, points, w, code, root)?;
    write(k as usize, points, w, code, root);
    Ok(())
}
