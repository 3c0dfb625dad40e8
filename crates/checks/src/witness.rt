// A witness in a byte buffer: its codeword and its root.
ghost use Rattle.std.specs.Prelude.{◌≡◌, map, true, ◌*◌, length};
ghost use Rattle.field.specs.BabyBear.{val};
ghost use Rattle.code.specs.Points.{is_witness_count};
ghost use Rattle.theory.specs.Fp.{codeword_of, witness_root, elements};
ghost use Rattle.theory.specs.Sizes.{points_fit, elements_below};

// Fills out with the codeword of the k numbers of w, at the points that are lent or, where there are none, at the built-in ones.
pub fn codeword(k: usize, points: &[u8], w: &[u8], out: &mut [u32])
    requires { (is_witness_count k ≡ true) × (length w.now ≡ 4 * k) × (elements_below w.now ≡ true) × (length out.old ≡ 4 * k) × (points_fit k points.now ≡ true) }
    ensures { out.new ≡ map val (codeword_of k points.now (elements k w.now)) }
{
    let mut ws = [0u32; 64];
    let ws = &mut ws[..k];
    numbers::load(w, ws);
    if points.is_empty() {
        transform::codeword(ws, out);
    } else {
        let mut lent = [0u32; 256];
        let lent = &mut lent[..4 * k];
        numbers::load(points, lent);
        code::codeword(ws, lent, out);
    }
}

// The root of the tree over the codeword of the k numbers of w.
pub fn root(k: usize, points: &[u8], w: &[u8]) -> [u8; 32]
    requires { (is_witness_count k ≡ true) × (length w.now ≡ 4 * k) × (elements_below w.now ≡ true) × (points_fit k points.now ≡ true) }
    ensures { result ≡ witness_root k points.now (elements k w.now) }
{
    let mut values = [0u32; 256];
    let values = &mut values[..4 * k];
    codeword(k, points, w, values);
    tree::root(values, code::depth_of(k))
}
