// Numbers in byte buffers: a number takes four bytes, lowest first.
#![tactic(auto)]

ghost use Rattle.std.specs.Prelude.{◌≡◌, ◌++◌, ◌+◌, ◌*◌, ◌≤◌, ◌<◌, length, get_or, take, drop, eqb};
ghost use Rattle.numbers.specs.Equality.{among};
ghost use Rattle.numbers.specs.Numbers.{numbers, bytes4, bytes, all_below, all_different};

// Number i of the buffer b.
pub fn get(b: &[u8], i: usize) -> u32
    requires { 4 * i + 4 ≤ length b.now }
    ensures { result ≡ get_or (numbers b.now) i 0 }
{
    let at = 4 * i;
    u32::from_le_bytes([b[at], b[at + 1], b[at + 2], b[at + 3]])
}

// The four bytes of x, or the lowest four where it has more.
pub fn bytes_of(x: usize) -> [u8; 4]
    ensures { result ≡ bytes4 x }
{
    let [a, b, c, d, ..] = x.to_le_bytes();
    [a, b, c, d]
}

// Writes x as number i of the buffer b.
pub fn put(b: &mut [u8], i: usize, x: u32)
    requires { 4 * i + 4 ≤ length b.old }
    ensures { b.new ≡ take (4 * i) b.old ++ bytes4 x ++ drop (4 * i + 4) b.old }
{
    let at = 4 * i;
    b[at..at + 4].copy_from_slice(&x.to_le_bytes());
}

// Whether all numbers of the buffer b are below m.
pub fn all_below(b: &[u8], m: u32) -> bool
    ensures { result ≡ all_below m (numbers b.now) }
{
    (0..b.len() / 4).all(|i| get(b, i) < m)
}

// Whether x is one of the numbers. The loop has one way through it, so that the compiler takes several numbers at a time.
fn is_among(x: u32, xs: &[u32]) -> bool
    ensures { result ≡ among eqb x xs.now }
{
    let mut found = false;
    for y in xs {
        found = found | (x == *y);
    }
    found
}

// Whether no number repeats another.
pub fn all_different(xs: &[u32]) -> bool
    ensures { result ≡ all_different xs.now }
{
    for (i, x) in xs.iter().enumerate() {
        if is_among(*x, &xs[i + 1..]) {
            return false;
        }
    }
    true
}

// Fills out with the numbers of b.
pub fn load(b: &[u8], out: &mut [u32])
    requires { length b.now ≡ 4 * length out.old }
    ensures { out.new ≡ numbers b.now }
{
    for (i, x) in out.iter_mut().enumerate() {
        *x = get(b, i);
    }
}

// Fills b with the bytes of the numbers xs.
pub fn store(xs: &[u32], b: &mut [u8])
    requires { length b.old ≡ 4 * length xs.now }
    ensures { b.new ≡ bytes xs.now }
{
    for (i, x) in xs.iter().enumerate() {
        put(b, i, *x);
    }
}
