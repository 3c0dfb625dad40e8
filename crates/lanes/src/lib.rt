// SHA-256 (FIPS 180-4) of four messages side by side. A word's four lanes lie next to each other in one array, and the compiler makes vector
// instructions of the loops over lanes.
#![tactic(auto)]

ghost use Rattle.std.specs.Prelude.{◌≡◌, [], ℕ, ◌*◌, ◌<◌, ◌≤◌, length, drop, get_or};
ghost use Rattle.hash.specs.Sha256.{H₀, words, scheduled, rounds, compress, hash, bytes};
ghost use Rattle.lanes.specs.Lanes.{lane, set_lane};

use hash::{compress, message};

// Reads the words of lane i.
fn get(s: &[u32], i: usize, v: &mut [u32])
    requires { (i < 4) × (length s.now ≡ 4 * length v.old) }
    ensures { v.new ≡ lane 4 i (length v.old) s.now }
{
    for j in 0..v.len() {
        v[j] = s[4 * j + i];
    }
}

// Writes the words of lane i.
fn put(s: &mut [u32], i: usize, v: &[u32])
    requires { (i < 4) × (length s.old ≡ 4 * length v.now) }
    ensures { s.new ≡ set_lane 4 i v.now (length v.now) s.old }
{
    for j in 0..v.len() {
        s[4 * j + i] = v[j];
    }
}

// Four rounds on each lane, with the lane's words and the constants k.
fn four_rounds(state: &mut [u32], words: &[u32], k: &[u32])
    requires { (length state.old ≡ 32) × (length words.now ≡ 16) × (length k.now ≡ 4) }
    ensures { (i : ℕ) → i < 4 → lane 4 i 8 state.new ≡ rounds k.now (lane 4 i 4 words.now) (lane 4 i 8 state.old) 4 }
{
    for i in 0..4 {
        let mut s = [0u32; 8];
        get(state, i, &mut s);
        let mut w = [0u32; 4];
        get(words, i, &mut w);
        let next = compress::rounds(s, k, &w);
        put(state, i, &next);
    }
}

// Moves each lane's sixteen words four words on in its schedule: the first four fall out, and the next four come in.
fn next_words(words: &mut [u32])
    requires { length words.old ≡ 64 }
    ensures { (i : ℕ) → i < 4 → lane 4 i 16 words.new ≡ drop 4 (scheduled (lane 4 i 16 words.old) 4) }
{
    for i in 0..4 {
        let mut w = [0u32; 20];
        get(words, i, &mut w[..16]);
        compress::extend(&mut w);
        put(words, i, &w[4..]);
    }
}

// The hash values h after the blocks m, lane by lane.
fn compress(h: [u32; 32], m: [u32; 64]) -> [u32; 32]
    ensures { (i : ℕ) → i < 4 → lane 4 i 8 result ≡ compress (lane 4 i 8 h) (lane 4 i 16 m) }
{
    let mut s = h;
    let mut w = m;
    for i in 0..16 {
        four_rounds(&mut s, &w[..16], &compress::K[4 * i..4 * i + 4]);
        next_words(&mut w);
    }
    let mut r = [0u32; 32];
    compress::sum(&s, &h, &mut r);
    r
}

// The initial hash value in each lane.
fn start() -> [u32; 32]
    ensures { (i : ℕ) → i < 4 → lane 4 i 8 result ≡ H₀ }
{
    let h = hash::H0;
    let mut s = [0u32; 32];
    for i in 0..4 {
        put(&mut s, i, &h);
    }
    s
}

// The block of each message from byte `at` on.
fn block(messages: &[[u8; 128]; 4], at: usize) -> [u32; 64]
    requires { at ≤ 64 }
    ensures { (i : ℕ) → i < 4 → lane 4 i 16 result ≡ words (get_or messages.now i []) at }
{
    let mut m = [0u32; 64];
    for i in 0..4 {
        put(&mut m, i, &message::block(&messages[i], at));
    }
    m
}

// The digests of four messages, which stand padded in as many blocks each.
pub fn digests(messages: &[[u8; 128]; 4], blocks: usize) -> [[u8; 32]; 4]
    requires { blocks ≤ 2 }
    ensures { (i : ℕ) → i < 4 → get_or result i [] ≡ bytes (hash H₀ (get_or messages.now i []) blocks) 8 }
{
    let mut value = start();
    for b in 0..blocks {
        let next = compress(value, block(messages, 64 * b));
        value = next;
    }
    let mut out = [[0u8; 32]; 4];
    for i in 0..4 {
        let mut v = [0u32; 8];
        get(&value, i, &mut v);
        out[i] = message::bytes(v);
    }
    out
}
