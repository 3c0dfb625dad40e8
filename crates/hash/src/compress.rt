// The compression of one block: FIPS 180-4, section 6.2.2.
ghost use Rattle.std.specs.Prelude.{◌≡◌, ◌+◌, ◌-◌, ◌/◌, ◌^◌, ◌<◌, ◌≤◌, length, take, slice_index_or};
ghost use Rattle.hash.specs.Word.{◌⊞◌, σ₀, σ₁};
ghost use Rattle.hash.specs.Sha256.{up_to, scheduled, schedule, round_with, rounds, compress, hash};

use crate::{message, word};

// The constants of the rounds: FIPS 180-4, section 4.2.2.
pub static K: [u32; 64] = [
    0x428a2f98, 0x71374491, 0xb5c0fbcf, 0xe9b5dba5, 0x3956c25b, 0x59f111f1, 0x923f82a4, 0xab1c5ed5,
    0xd807aa98, 0x12835b01, 0x243185be, 0x550c7dc3, 0x72be5d74, 0x80deb1fe, 0x9bdc06a7, 0xc19bf174,
    0xe49b69c1, 0xefbe4786, 0x0fc19dc6, 0x240ca1cc, 0x2de92c6f, 0x4a7484aa, 0x5cb0a9dc, 0x76f988da,
    0x983e5152, 0xa831c66d, 0xb00327c8, 0xbf597fc7, 0xc6e00bf3, 0xd5a79147, 0x06ca6351, 0x14292967,
    0x27b70a85, 0x2e1b2138, 0x4d2c6dfc, 0x53380d13, 0x650a7354, 0x766a0abb, 0x81c2c92e, 0x92722c85,
    0xa2bfe8a1, 0xa81a664b, 0xc24b8b70, 0xc76c51a3, 0xd192e819, 0xd6990624, 0xf40e3585, 0x106aa070,
    0x19a4c116, 0x1e376c08, 0x2748774c, 0x34b0bcb5, 0x391c0cb3, 0x4ed8aa4a, 0x5b9cca4f, 0x682e6ff3,
    0x748f82ee, 0x78a5636f, 0x84c87814, 0x8cc70208, 0x90befffa, 0xa4506ceb, 0xbef9a3f7, 0xc67178f2,
];

// A word of the schedule from the words 16, 15, 7 and 2 before it.
fn next_word(w16: u32, w15: u32, w7: u32, w2: u32) -> u32
    ensures { result ≡ σ₁ w2 ⊞ w7 ⊞ σ₀ w15 ⊞ w16 }
{
    word::small_sigma1(w2)
        .wrapping_add(w7)
        .wrapping_add(word::small_sigma0(w15))
        .wrapping_add(w16)
}

// Continues a message schedule: each word from 16 on, by those before it.
pub fn extend(w: &mut [u32])
    requires { 16 ≤ length w.old }
    ensures { w.new ≡ scheduled (take 16 w.old) (length w.old - 16) }
{
    for t in 16..w.len() {
        w[t] = next_word(w[t - 16], w[t - 15], w[t - 7], w[t - 2]);
    }
}

// The message schedule of a block.
fn schedule(m: [u32; 16]) -> [u32; 64]
    ensures { result ≡ schedule m }
{
    let mut w = [0u32; 64];
    w[..16].copy_from_slice(&m);
    extend(&mut w);
    w
}

// One round, with its constant k and its word w of the schedule.
fn round(s: [u32; 8], k: u32, w: u32) -> [u32; 8]
    ensures { result ≡ round_with k w s }
{
    let [a, b, c, d, e, f, g, h] = s;
    let t1 = h
        .wrapping_add(word::big_sigma1(e))
        .wrapping_add(word::ch(e, f, g))
        .wrapping_add(k)
        .wrapping_add(w);
    let t2 = word::big_sigma0(a).wrapping_add(word::maj(a, b, c));
    [t1.wrapping_add(t2), a, b, c, d.wrapping_add(t1), e, f, g]
}

// The working variables after a round for each of the words, with the constants k.
pub fn rounds(before: [u32; 8], k: &[u32], w: &[u32]) -> [u32; 8]
    requires { length k.now ≡ length w.now }
    ensures { result ≡ rounds k.now w.now before (length w.now) }
{
    let mut s = before;
    for t in 0..w.len() {
        let next = round(s, k[t], w[t]);
        s = next;
    }
    s
}

// Writes the sums of the words of x and y, place by place.
pub fn sum(x: &[u32], y: &[u32], z: &mut [u32])
    requires { (length x.now ≡ length z.old) × (length y.now ≡ length z.old) }
    ensures { z.new ≡ up_to (length z.old) (λ i. slice_index_or x.now i 0 ⊞ slice_index_or y.now i 0) }
{
    for i in 0..z.len() {
        z[i] = x[i].wrapping_add(y[i]);
    }
}

// The hash value h after the block m. The compiler writes eight rounds out, one after the other.
pub fn compress(h: [u32; 8], m: [u32; 16]) -> [u32; 8]
    ensures { result ≡ compress h m }
{
    let w = schedule(m);
    let mut s = h;
    for i in 0..8 {
        s = rounds(s, &K[8 * i..8 * i + 8], &w[8 * i..8 * i + 8]);
    }
    let mut r = [0u32; 8];
    sum(&s, &h, &mut r);
    r
}

// A hash value, and how many blocks were processed for it.
#[derive(Clone, Copy)]
pub struct State {
    pub value: [u32; 8],
    pub blocks: u64,
}

// The state after the whole blocks of s, where it was `before` before them.
pub fn blocks(before: State, s: &[u8]) -> State
    requires { before.blocks + length s.now / 64 < 2 ^ 64 }
    ensures { (result.value ≡ hash before.value s.now (length s.now / 64)) × (result.blocks ≡ before.blocks + length s.now / 64) }
{
    let mut state = before;
    for i in 0..s.len() / 64 {
        state.value = compress(state.value, message::block(s, 64 * i));
        state.blocks += 1;
    }
    state
}
