// The codeword at the built-in points, by the halving transform: the value at x of a polynomial is that of its even part at x²
// plus x times that of its odd part, and the squares of the points are the points of half the size.
#![tactic(auto)]

ghost use Rattle.std.specs.Prelude.{◌≡◌, true, map, ℕ, ◌+◌, ◌*◌, ◌-◌, ◌<◌, length, get_or, replicate};
ghost use Rattle.field.specs.BabyBear.{R, val, ofℕ};
ghost use Rattle.field.specs.Numbers.{Below};
ghost use Rattle.code.specs.Codeword.{codeword};
ghost use Rattle.code.specs.Points.{is_witness_count, depth, points};
ghost use Rattle.transform.specs.Blocks.{block, Blocks, joint, place};

// Joins the values of the even part, which are the first half of out, with those of the odd part to the values of the whole.
// Its points are every step-th of the table, and then their opposites.
fn join(table: &[u32], step: usize, half: usize, out: &mut [u32])
    requires { (length out.old ≡ half + half) × ((i : ℕ) → i < half → i * step < length table.now) × Below out.old }
    ensures { out.new ≡ joint table.now step half out.old }
{
    for i in 0..half {
        let even = out[i];
        let product = field::mul(table[i * step], out[half + i]);
        out[half + i] = field::sub(even, product);
        out[i] = field::add(even, product);
    }
}

// Joins the first half of each of n blocks with the second. A block is cut out by its place, here and in `spread`: after
// `chunks_exact_mut` a proof knows out's length and none of its numbers.
fn join_all(table: &[u32], step: usize, half: usize, n: usize, out: &mut [u32])
    requires { (0 < n) × (length out.old ≡ n * (half + half)) × ((i : ℕ) → i < half → i * step < length table.now) × Below out.old }
    ensures { Blocks n (half + half) (λ b. joint table.now step half (block (half + half) b out.old)) out.new }
{
    let size = half + half;
    for b in 0..n {
        let at = b * size;
        join(table, step, half, &mut out[at..at + size]);
    }
}

// Writes the codewords of single numbers: in block b that of the number of w at the block's place, which follows from the place of half of b.
fn spread(w: &[u32], out: &mut [u32])
    requires { (is_witness_count (length w.now) ≡ true) × (length out.old ≡ 4 * length w.now) }
    ensures { Blocks (length w.now) 4 (λ b. replicate 4 (get_or w.now (place (depth (length w.now) - 2) b) 0)) out.new }
{
    let k = w.len();
    let mut place = [0usize; 64];
    for b in 0..k {
        place[b] = place[b / 2] / 2 + b % 2 * (k / 2);
        let at = b * 4;
        out[at..at + 4].fill(w[place[b]]);
    }
}

// Writes the codeword of w. At first each number is a part by itself, with four values. Each level joins the parts by pairs to half as many,
// each with twice as many values, until one is left. The points of a part are every step-th of the table.
pub fn codeword(w: &[u32], out: &mut [u32])
    requires { (is_witness_count (length w.now) ≡ true) × (length out.old ≡ 4 * length w.now) × Below w.now }
    ensures { out.new ≡ map val (codeword R (points (length w.now)) (map ofℕ w.now)) }
{
    let table = code::table();
    spread(w, out);
    let mut n = w.len();
    let mut values = 4;
    let mut step = 64;
    while 1 < n {
        n /= 2;
        step /= 2;
        join_all(&table, step, values, n, out);
        values *= 2;
    }
}
