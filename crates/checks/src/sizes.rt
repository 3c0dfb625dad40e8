// Check 2: sizes, counts and lengths; checks 5 and 6: the challenge and the positions.
ghost use Rattle.std.specs.Prelude.{◌≡◌, ◌<◌};
ghost use Rattle.theory.specs.Sizes.{claim_sizes, item_count_fits, position_count_fits, matrix_fits, circuit_fits, positions_below};
ghost use Rattle.theory.specs.Fp.{challenge_fits};

use r1cs::circuit::Circuit;

// m and n by themselves: drawing r has no k, of which `Sizes` would be made.
pub fn claim_sizes(m: u32, n: u32) -> bool
    ensures { result ≡ claim_sizes m n }
{
    (m <= 6) & (1..=64).contains(&n)
}

// 1 to 8 items.
pub fn item_count_fits(l: u32) -> bool
    ensures { result ≡ item_count_fits l }
{
    (1..=8).contains(&l)
}

// 1 to 4k positions.
pub fn position_count_fits(k: u32, t: u32) -> bool
    requires { k < 65536 }
    ensures { result ≡ position_count_fits k t }
{
    (1..=4 * k).contains(&t)
}

// Whole entries, at most 1,024 of them.
fn matrix_fits(b: &[u8]) -> bool
    ensures { result ≡ matrix_fits b.now }
{
    (b.len() % 12 == 0) & (b.len() <= 12288)
}

pub fn circuit_fits(circuit: &Circuit<'_>) -> bool
    ensures { result ≡ circuit_fits circuit.now.a.now circuit.now.b.now circuit.now.c.now }
{
    matrix_fits(circuit.a) & matrix_fits(circuit.b) & matrix_fits(circuit.c)
}

// Check 5.
pub fn challenge_fits(l: u32, challenge: u32) -> bool
    ensures { result ≡ challenge_fits l challenge }
{
    (l..field::P).contains(&challenge)
}

// Check 6.
pub fn positions_below(k: u32, positions: &[u8]) -> bool
    requires { k < 65536 }
    ensures { result ≡ positions_below k positions.now }
{
    numbers::all_below(positions, 4 * k)
}
