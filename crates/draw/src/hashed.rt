// What is drawn from a digest.
ghost use Rattle.std.specs.Prelude.{◌≡◌, ◌%◌, ◌<◌};
ghost use Rattle.draw.specs.Draw.{eight};

// The number in the first eight bytes, lowest first, modulo q.
pub fn eight(digest: [u8; 32], q: u32) -> u32
    requires { 0 < q }
    ensures { result ≡ eight digest % q }
{
    let [a, b, c, d, e, f, g, h, ..] = digest;
    (u64::from_le_bytes([a, b, c, d, e, f, g, h]) % (q as u64)) as u32
}
