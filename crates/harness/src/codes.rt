// The code.
ghost use Rattle.std.specs.Prelude.{◌≡◌, ◌&&◌, [], ◌∷◌, map, length};
ghost use Rattle.numbers.specs.Numbers.{all_below};
ghost use Rattle.field.specs.BabyBear.{p, R, val, ofℕ};
ghost use Rattle.code.specs.Codeword.{codeword};
ghost use Rattle.code.specs.Points.{is_witness_count, points};
ghost use Rattle.harness.specs.Answers.{permitted_answer};
ghost use Rattle.theory.specs.Checks.{check, answer, written};
ghost use Rattle.theory.specs.Sizes.{points_fit, points_differ};
ghost use Rattle.checks.specs.Refusals.{answer_of};
ghost use Rattle.harness.specs.Permitted.{codeword_sizes, codeword_permitted, codeword_at_permitted};

use checks::refusal::{self, Refusal, ensure};

// Whether all numbers are below p.
fn all_elements(w: &[u32]) -> bool
    ensures { result ≡ all_below p w.now }
{
    w.iter().all(|x| *x < field::P)
}

fn sizes(k: usize, out: usize) -> bool
    ensures { result ≡ codeword_sizes k out }
{
    matches!(k, 2 | 4 | 8 | 16 | 32 | 64) & (out % 4 == 0) & (out / 4 == k)
}

fn permitted(w: &[u32], out: usize) -> bool
    ensures { result ≡ codeword_permitted w.now out }
{
    sizes(w.len(), out) & all_elements(w)
}

// Writes the codeword of w. Refuses sizes that do not fit, and numbers of p or more.
#[unsafe(no_mangle)]
pub extern "C" fn lomvuze_test_codeword(w: &[u32], out: &mut [u32]) -> u32
    ensures answer { result ≡ permitted_answer (codeword_permitted w.now (length out.old)) }
    ensures out { out.new ≡ written result (map val (codeword R (points (length w.now)) (map ofℕ w.now))) out.old }
{
    if !permitted(w, out.len()) {
        return 1;
    }
    transform::codeword(w, out);
    0
}

fn permitted_at(w: &[u32], points: usize, out: usize) -> bool
    ensures { result ≡ codeword_at_permitted w.now points out }
{
    (points == out) & all_elements(w)
}

// Writes the codeword of w at the points that are lent. Refuses other lengths than the points', and numbers of p or more.
#[unsafe(no_mangle)]
pub extern "C" fn lomvuze_test_codeword_at(w: &[u32], points: &[u32], out: &mut [u32]) -> u32
    ensures answer { result ≡ permitted_answer (codeword_at_permitted w.now (length points.now) (length out.old)) }
    ensures out { out.new ≡ written result (map val (codeword R (map ofℕ points.now) (map ofℕ w.now))) out.old }
{
    if !permitted_at(w, points.len(), out.len()) {
        return 1;
    }
    code::codeword(w, points, out);
    0
}

fn points_verdict(k: u32, points: &[u8]) -> Result<(), Refusal>
    ensures { answer_of result ≡ answer (check 2 (is_witness_count k && points_fit k points.now) ∷ check 12 (points_differ points.now) ∷ []) }
{
    let fits = code::is_witness_count(k) & checks::points::fits(k as usize, points);
    ensure(fits, Refusal::Sizes)?;
    ensure(checks::points::differ(k as usize, points), Refusal::Points)
}

// Checks 2 and 12 of the points that are lent for k witness numbers.
#[unsafe(no_mangle)]
pub extern "C" fn lomvuze_test_points(k: u32, points: &[u8]) -> u32
    ensures { result ≡ answer (check 2 (is_witness_count k && points_fit k points.now) ∷ check 12 (points_differ points.now) ∷ []) }
{
    refusal::answer(points_verdict(k, points))
}
