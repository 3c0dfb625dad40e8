// SHA-256 (FIPS 180-4), for a message of any length, and for the leaf and the inner node of a hash tree (RFC 6962, section 2.1).
#![tactic(auto)]

ghost use Rattle.std.specs.Prelude.{◌≡◌, ◌+◌, ◌^◌, ◌<◌, ◌≤◌, ◌∷◌, ◌++◌, length, take};
ghost use Rattle.hash.specs.Sha256.{padded_in, block_count, digest};

pub mod compress;
pub mod message;
mod word;

use crate::compress::State;

// The initial hash value: FIPS 180-4, section 5.3.3.
pub const H0: [u32; 8] = [
    0x6a09e667, 0xbb67ae85, 0x3c6ef372, 0xa54ff53a, 0x510e527f, 0x9b05688c, 0x1f83d9ab, 0x5be0cd19,
];

// The digest of a message, and how many blocks were processed for it.
#[derive(Clone, Copy)]
pub struct Hashed {
    pub digest: [u8; 32],
    pub blocks: u64,
}

// Hashes a message: its whole blocks, then the last blocks, which hold the padding.
pub fn digest(msg: &[u8]) -> Hashed
    requires { length msg.now < 2 ^ 61 }
    ensures { (result.digest ≡ digest msg.now) × (result.blocks ≡ block_count msg.now) }
{
    let len = msg.len();
    let start = State {
        value: H0,
        blocks: 0,
    };
    let whole = compress::blocks(start, msg);
    let mut last = [0u8; 128];
    last[..len % 64].copy_from_slice(&msg[64 * (len / 64)..]);
    message::close(&mut last, len % 64, len);
    let all = compress::blocks(whole, &last[..64 * ((len % 64 + 8) / 64 + 1)]);
    Hashed {
        digest: message::bytes(all.value),
        blocks: all.blocks,
    }
}

// The message of a leaf, at the front: the byte 0x00, the four bytes of a position, and those of a value, at most sixteen.
fn leaf_message(position: [u8; 4], value: &[u8]) -> [u8; 21]
    requires { length value.now ≤ 16 }
    ensures { take (5 + length value.now) result ≡ 0x00 ∷ (position ++ value.now) }
{
    let mut msg = [0u8; 21];
    msg[0] = 0x00;
    msg[1..5].copy_from_slice(&position);
    msg[5..5 + value.len()].copy_from_slice(value);
    msg
}

// Hashes a leaf.
pub fn leaf(position: [u8; 4], value: &[u8]) -> Hashed
    requires { length value.now ≤ 16 }
    ensures { (result.digest ≡ digest (0x00 ∷ (position ++ value.now))) × (result.blocks ≡ block_count (0x00 ∷ (position ++ value.now))) }
{
    let msg = leaf_message(position, value);
    digest(&msg[..5 + value.len()])
}

// The padded message of a leaf: one block, and zeros behind it.
pub fn padded_leaf(position: [u8; 4], value: &[u8]) -> [u8; 128]
    requires { length value.now ≤ 16 }
    ensures { (result ≡ padded_in 128 (0x00 ∷ (position ++ value.now))) × (block_count (0x00 ∷ (position ++ value.now)) ≡ 1) }
{
    let msg = leaf_message(position, value);
    message::padded(&msg[..5 + value.len()])
}

// The message of an inner node: the byte 0x01 and the digests of its two children.
fn node_message(left: [u8; 32], right: [u8; 32]) -> [u8; 65]
    ensures { result ≡ 0x01 ∷ (left ++ right) }
{
    let mut msg = [0u8; 65];
    msg[0] = 0x01;
    msg[1..33].copy_from_slice(&left);
    msg[33..].copy_from_slice(&right);
    msg
}

// Hashes an inner node.
pub fn node(left: [u8; 32], right: [u8; 32]) -> Hashed
    ensures { (result.digest ≡ digest (0x01 ∷ (left ++ right))) × (result.blocks ≡ block_count (0x01 ∷ (left ++ right))) }
{
    digest(&node_message(left, right))
}

// The padded message of an inner node, which is two blocks.
pub fn padded_node(left: [u8; 32], right: [u8; 32]) -> [u8; 128]
    ensures { (result ≡ padded_in 128 (0x01 ∷ (left ++ right))) × (block_count (0x01 ∷ (left ++ right)) ≡ 2) }
{
    message::padded(&node_message(left, right))
}
