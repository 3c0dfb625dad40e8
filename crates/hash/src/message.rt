// Bytes and words, and the blocks of a padded message: FIPS 180-4, sections 5.1.1 and 5.2.1.
ghost use Rattle.std.specs.Prelude.{◌≡◌, ◌+◌, ◌-◌, ◌%◌, ◌^◌, ◌<◌, ◌≤◌, ◌++◌, length, take, drop, replicate};
ghost use Rattle.hash.specs.Sha256.{padding, padded_in, words, bytes};

// The sixteen words of s from byte `at` on.
pub fn block(s: &[u8], at: usize) -> [u32; 16]
    requires { at + 64 ≤ length s.now }
    ensures { result ≡ words s.now at }
{
    let mut m = [0u32; 16];
    for j in 0..16 {
        let i = at + 4 * j;
        m[j] = u32::from_be_bytes([s[i], s[i + 1], s[i + 2], s[i + 3]]);
    }
    m
}

// Writes the padding of a message of len bytes into b from index `at` on, where the bytes of its last blocks end and zeros follow.
pub fn close(b: &mut [u8], at: usize, len: usize)
    requires { (len < 2 ^ 61) × (length b.old ≡ 128) × (at < 120) × (at % 64 ≡ len % 64) × (drop at b.old ≡ replicate (128 - at) 0) }
    ensures { b.new ≡ take at b.old ++ padding len ++ replicate (128 - at - length (padding len)) 0 }
{
    b[at] = 0x80;
    let end = at + 1 + (119 - at % 64) % 64;
    b[end..end + 8].copy_from_slice(&(8 * len as u64).to_be_bytes());
}

// A message of at most 119 bytes, padded. Zeros follow the one or two blocks.
pub fn padded(msg: &[u8]) -> [u8; 128]
    requires { length msg.now < 120 }
    ensures { result ≡ padded_in 128 msg.now }
{
    let mut b = [0u8; 128];
    b[..msg.len()].copy_from_slice(msg);
    close(&mut b, msg.len(), msg.len());
    b
}

// The thirty-two bytes of a hash value.
pub fn bytes(h: [u32; 8]) -> [u8; 32]
    ensures { result ≡ bytes h 8 }
{
    let mut d = [0u8; 32];
    for j in 0..8 {
        d[4 * j..4 * j + 4].copy_from_slice(&h[j].to_be_bytes());
    }
    d
}
