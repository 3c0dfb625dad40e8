// Check 4: the entries of a circuit are inside rows and columns, and strictly ascending by row and then column.
ghost use Rattle.std.specs.Prelude.{◌≡◌, suc, ◌-◌, ◌*◌, ◌<◌, length};
ghost use Rattle.theory.specs.Checks.{every};
ghost use Rattle.theory.specs.Buffers.{entry_count};
ghost use Rattle.theory.specs.Sizes.{inside, before, matrix_in_order, circuit_in_order};

use r1cs::circuit::Circuit;
use r1cs::sizes::Sizes;

// An entry, of twelve bytes, is inside.
fn inside(sizes: Sizes, entry: &[u8]) -> bool
    requires { length entry.now ≡ 12 }
    ensures { result ≡ inside sizes.m sizes.n sizes.k entry.now 0 }
{
    let row = numbers::get(entry, 0) as usize;
    let column = numbers::get(entry, 1) as usize;
    (row < 1 << sizes.m) & (column < sizes.n + sizes.k)
}

// Entry i comes before entry j.
fn comes_before(b: &[u8], i: usize, j: usize) -> bool
    requires { (i < entry_count b.now) × (j < entry_count b.now) }
    ensures { result ≡ before b.now i j }
{
    let row = numbers::get(b, 3 * i);
    let next = numbers::get(b, 3 * j);
    let ascending = numbers::get(b, 3 * i + 1) < numbers::get(b, 3 * j + 1);
    (row < next) | ((row == next) & ascending)
}

// Every entry is inside.
fn entries_inside(sizes: Sizes, b: &[u8]) -> bool
    ensures { result ≡ every (entry_count b.now) (inside sizes.m sizes.n sizes.k b.now) }
{
    b.chunks_exact(12).all(|entry| inside(sizes, entry))
}

// Every entry comes before the next.
fn entries_ascending(b: &[u8]) -> bool
    ensures { result ≡ every (entry_count b.now - 1) (λ i. before b.now i (suc i)) }
{
    (1..b.len() / 12).all(|j| comes_before(b, j - 1, j))
}

fn matrix_in_order(sizes: Sizes, b: &[u8]) -> bool
    ensures { result ≡ matrix_in_order sizes.m sizes.n sizes.k b.now }
{
    entries_inside(sizes, b) & entries_ascending(b)
}

pub fn circuit_in_order(sizes: Sizes, circuit: &Circuit<'_>) -> bool
    ensures { result ≡ circuit_in_order sizes.m sizes.n sizes.k circuit.now.a.now circuit.now.b.now circuit.now.c.now }
{
    matrix_in_order(sizes, circuit.a)
        & matrix_in_order(sizes, circuit.b)
        & matrix_in_order(sizes, circuit.c)
}
