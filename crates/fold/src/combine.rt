// Sums of numbers of a byte buffer with given weights: the combinations of the items' and the witnesses' numbers.
ghost use Rattle.std.specs.Prelude.{◌≡◌, ℕ, ◌+◌, ◌*◌, ◌≤◌, ◌<◌, length};
ghost use Rattle.field.specs.BabyBear.{val};
ghost use Rattle.fold.specs.Weights.{weighted, weighted_from};

// The sum of weight i times number i * stride + at of the buffer.
pub fn weighted(weights: &[u32], buffer: &[u8], stride: usize, at: usize) -> u32
    requires { (i : ℕ) → i < length weights.now → 4 * (i * stride + at) + 4 ≤ length buffer.now }
    ensures { result ≡ val (weighted weights.now buffer.now stride at) }
{
    let mut sum: u32 = 0;
    for (i, weight) in weights.iter().enumerate() {
        let term = field::mul(*weight, numbers::get(buffer, i * stride + at));
        sum = field::add(sum, term);
    }
    sum
}

// Fills out with the sums for the numbers from `at` on. There is a weight, so that these numbers lie in the buffer.
pub fn combine(weights: &[u32], buffer: &[u8], stride: usize, at: usize, out: &mut [u32])
    requires { (0 < length weights.now) × ((i : ℕ) → i < length weights.now → 4 * (i * stride + at + length out.old) ≤ length buffer.now) }
    ensures { out.new ≡ weighted_from weights.now buffer.now stride at (length out.old) }
{
    for (b, sum) in out.iter_mut().enumerate() {
        *sum = weighted(weights, buffer, stride, at + b);
    }
}
