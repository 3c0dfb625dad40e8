// Check 3: elements, values of entries and opened values are below p.
ghost use Rattle.std.specs.Prelude.{◌≡◌, ℕ, ◌*◌, ◌≤◌, ltb, length};
ghost use Rattle.field.specs.BabyBear.{p};
ghost use Rattle.tree.specs.Layout.{part, opening_size};
ghost use Rattle.code.specs.Points.{depth};
ghost use Rattle.theory.specs.Checks.{every};
ghost use Rattle.theory.specs.Buffers.{number_at};
ghost use Rattle.theory.specs.Sizes.{elements_below, matrix_below, circuit_below};
ghost use Rattle.theory.specs.Fp.{item_front, item_below, opened_below};

use r1cs::circuit::Circuit;
use r1cs::sizes::Sizes;

// All numbers of a buffer.
pub fn elements_below(b: &[u8]) -> bool
    ensures { result ≡ elements_below b.now }
{
    numbers::all_below(b, field::P)
}

// The values of a matrix's entries.
fn matrix_below(b: &[u8]) -> bool
    ensures { result ≡ matrix_below b.now }
{
    b.chunks_exact(12)
        .all(|entry| numbers::get(entry, 2) < field::P)
}

// The values of a circuit's entries, list by list: joined by `&` the three loops are slower.
pub fn circuit_below(circuit: &Circuit<'_>) -> bool
    ensures { result ≡ circuit_below circuit.now.a.now circuit.now.b.now circuit.now.c.now }
{
    if !matrix_below(circuit.a) {
        return false;
    }
    if !matrix_below(circuit.b) {
        return false;
    }
    matrix_below(circuit.c)
}

// The elements of an item.
pub fn item_below(sizes: Sizes, item: &[u8]) -> bool
    requires { item_front sizes.m sizes.n ≤ length item.now }
    ensures { result ≡ item_below sizes.m sizes.n item.now }
{
    elements_below(&item[..sizes.item_front()])
}

// The first `count` numbers of each of l items of `size` bytes.
pub fn items_below(count: usize, size: usize, l: usize, items: &[u8]) -> bool
    requires { (4 * count ≤ size) × (length items.now ≡ l * size) }
    ensures { result ≡ every l (λ i. every count (λ j. ltb (number_at (part items.now (i * size) size) j) p)) }
{
    (0..l).all(|i| elements_below(&items[i * size..i * size + 4 * count]))
}

// The values of openings.
pub fn opened_below(sizes: Sizes, openings: &[u8]) -> bool
    ensures { (count : ℕ) → length openings.now ≡ count * opening_size (depth sizes.k) → result ≡ opened_below (depth sizes.k) count openings.now }
{
    openings
        .chunks_exact(sizes.opening_size())
        .all(|opening| numbers::get(opening, 0) < field::P)
}
