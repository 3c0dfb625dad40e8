// Interpolation at consecutive numbers by Newton's rule, in place.
ghost use Rattle.std.specs.Prelude.{◌≡◌, map, ◌+◌, ◌≤◌, ◌<◌, length};
ghost use Rattle.algebra.specs.Lists.{build};
ghost use Rattle.algebra.specs.Interpolation.{interpolate};
ghost use Rattle.field.specs.BabyBear.{baby_bear, p, val, ofℕ};
ghost use Rattle.field.specs.Numbers.{Below};
ghost use Rattle.fold.specs.Newton.{slopes_from, expand_from};

use field::Inverses;

// One step of the divided differences: behind index i, each value becomes the slope from value i to it.
fn slopes(i: usize, inverses: &Inverses, values: &mut [u32])
    requires { (i < length values.old) × (length values.old < 64) × Below values.old }
    ensures { values.new ≡ slopes_from i values.old }
{
    let v = values[i];
    for j in i + 1..values.len() {
        values[j] = field::mul(field::sub(values[j], v), inverses.of(j - i));
    }
}

// From index i on: v + (X - a) q, where v stands at i and the coefficients of q behind it.
fn expand(i: usize, a: u32, values: &mut [u32])
    requires { (i < length values.old) × Below values.old }
    ensures { values.new ≡ expand_from i a values.old }
{
    for j in i..values.len() - 1 {
        values[j] = field::sub(values[j], field::mul(a, values[j + 1]));
    }
}

// Turns the values at first, first + 1, .. into the coefficients of the polynomial that takes them.
pub fn interpolate(first: u32, inverses: &Inverses, values: &mut [u32])
    requires { (length values.old < 64) × (first + length values.old ≤ p) × Below values.old }
    ensures { values.new ≡ map val (interpolate baby_bear (build (length values.old) (λ i. ofℕ (first + i))) (map ofℕ values.old)) }
{
    let n = values.len();
    for i in 0..n {
        slopes(i, inverses, values);
    }
    for i in (0..n).rev() {
        expand(i, first + (i as u32), values);
    }
}
