// An item in a buffer: how many bytes it has, and writing it.
ghost use Rattle.std.specs.Prelude.{◌≡◌, ◌++◌, ◌+◌, ◌*◌, ◌≤◌, ◌<◌, length};
ghost use Rattle.numbers.specs.Numbers.{bytes};
ghost use Rattle.theory.specs.Fp.{item_front, item_size};

// The bytes before the root.
pub fn front(m: usize, n: usize) -> usize
    requires { (m < 4294967296) × (n < 4294967296) }
    ensures { result ≡ item_front m n }
{
    4 + 4 * m + 4 * n
}

// All of its bytes.
pub fn size(m: usize, n: usize) -> usize
    requires { (m < 4294967296) × (n < 4294967296) }
    ensures { result ≡ item_size m n }
{
    front(m, n) + 32
}

// Writes the numbers e, r and x, and the root behind them.
pub fn write(values: &[u32], root: [u8; 32], out: &mut [u8])
    requires { (length values.now ≤ 71) × (length out.old ≡ 4 * length values.now + 32) }
    ensures { out.new ≡ bytes values.now ++ root }
{
    let end = 4 * values.len();
    numbers::store(values, &mut out[..end]);
    out[end..].copy_from_slice(&root);
}
