// The value of a rank-1 constraint system at r and z, from a circuit that lies in byte buffers.
ghost use Rattle.std.specs.Prelude.{◌≡◌, map, ◌^◌, ◌≤◌, ◌<◌, length};
ghost use Rattle.field.specs.BabyBear.{p, R, val, ofℕ};
ghost use Rattle.field.specs.Numbers.{Below};
ghost use Rattle.theory.specs.R1cs.{bit_weight, weight, weighted_sum};
ghost use Rattle.theory.specs.Fp.{circuit};
ghost use Rattle.r1cs.specs.Rows.{EntriesInside, row_sums};

// The three matrices of a circuit, each a list of entries in a byte buffer.
#[derive(Clone, Copy)]
pub struct Circuit<'a> {
    pub a: &'a [u8],
    pub b: &'a [u8],
    pub c: &'a [u8],
}

impl Circuit<'_> {
    // The sum over the 2^m rows of weight × ((Az)(Bz) - Cz).
    pub fn value(&self, r: &[u32], z: &[u32]) -> u32
        requires r_len_bound { (length r.now ≤ 6) × Below r.now }
        requires entries_inside { EntriesInside 64 (length z.now) self.now.a.now × EntriesInside 64 (length z.now) self.now.b.now × EntriesInside 64 (length z.now) self.now.c.now }
        ensures { result ≡ val (weighted_sum R (circuit self.now.a.now self.now.b.now self.now.c.now) (map ofℕ r.now) (map ofℕ z.now)) }
    {
        let az = row_sums(self.a, z);
        let bz = row_sums(self.b, z);
        let cz = row_sums(self.c, z);
        let rows = rows_of(r.len());
        let mut sum: u32 = 0;
        for j in 0..rows {
            let residual = field::sub(field::mul(az[j], bz[j]), cz[j]);
            sum = field::add(sum, field::mul(weight(r, j), residual));
        }
        sum
    }
}

// Row j of a matrix times z, for each j below 64: every entry adds to its row.
pub fn row_sums(entries: &[u8], z: &[u32]) -> [u32; 64]
    requires { EntriesInside 64 (length z.now) entries.now }
    ensures { result ≡ row_sums entries.now z.now }
{
    let mut sums = [0u32; 64];
    for i in 0..entries.len() / 12 {
        let row = numbers::get(entries, 3 * i) as usize;
        let column = numbers::get(entries, 3 * i + 1) as usize;
        let term = field::mul(numbers::get(entries, 3 * i + 2), z[column]);
        sums[row] = field::add(sums[row], term);
    }
    sums
}

// r where the bit is 1, 1 - r where it is 0.
fn bit_weight(bit: usize, r: u32) -> u32
    requires { r < p }
    ensures { result ≡ val (bit_weight R bit (ofℕ r)) }
{
    if bit == 0 { field::sub(1, r) } else { r }
}

// The weight of row j: the product over the bits of j, of which r_0 has the lowest.
pub fn weight(r: &[u32], j: usize) -> u32
    requires { Below r.now }
    ensures { result ≡ val (weight R (map ofℕ r.now) j) }
{
    let mut product: u32 = 1;
    let mut rest = j;
    for x in r {
        product = field::mul(product, bit_weight(rest % 2, *x));
        rest = rest / 2;
    }
    product
}

// The number of rows.
fn rows_of(m: usize) -> usize
    requires { m ≤ 6 }
    ensures { (result ≡ 2 ^ m) × (result ≤ 64) }
{
    1 << m
}
