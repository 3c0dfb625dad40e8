// The points that a caller lends: check 2 of their length, and check 12.
ghost use Rattle.std.specs.Prelude.{◌≡◌, true, ◌<◌};
ghost use Rattle.code.specs.Points.{is_witness_count};
ghost use Rattle.theory.specs.Sizes.{points_fit, points_differ};

// Check 2: none, or 4k numbers.
pub fn fits(k: usize, points: &[u8]) -> bool
    requires { k < 4294967296 }
    ensures { result ≡ points_fit k points.now }
{
    points.is_empty() | (points.len() == 4 * (4 * k))
}

// Check 12, after check 2: each lent point is below p, and none repeats another.
pub fn differ(k: usize, points: &[u8]) -> bool
    requires { (is_witness_count k ≡ true) × (points_fit k points.now ≡ true) }
    ensures { result ≡ points_differ points.now }
{
    if points.is_empty() {
        return true;
    }
    let mut scratch = [0u32; 256];
    let lent = &mut scratch[..4 * k];
    numbers::load(points, lent);
    numbers::all_below(points, field::P) & numbers::all_different(lent)
}
