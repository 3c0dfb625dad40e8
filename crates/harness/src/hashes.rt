// SHA-256, the leaf and the inner node of a hash tree, four messages side by side, and a running hash.
ghost use Rattle.std.specs.Prelude.{◌≡◌, [], ◌∷◌, ◌++◌, ℕ, ◌%◌, ◌^◌, ◌<◌, length, get_or};
ghost use Rattle.hash.specs.Sha256.{H₀, block_count, hash, bytes, digest};
ghost use Rattle.harness.specs.Answers.{digest_answer, leaf_answer, running_answer};
ghost use Rattle.theory.specs.Checks.{written};

use running::Running;

// The digest, and the number of blocks. A message of 2^61 bytes or more is refused: its length in bits does not fit eight bytes.
#[unsafe(no_mangle)]
pub extern "C" fn lomvuze_test_digest(
    message: &[u8],
    out: &mut [u8; 32],
    blocks: &mut [u64; 1],
) -> u32
    ensures answer { result ≡ digest_answer (length message.now) }
    ensures out { out.new ≡ written result (digest message.now) out.old }
    ensures blocks { blocks.new ≡ written result (block_count message.now ∷ []) blocks.old }
{
    if message.len() >= 0x2000000000000000 {
        return 1;
    }
    let hashed = hash::digest(message);
    out.copy_from_slice(&hashed.digest);
    *blocks = [hashed.blocks];
    0
}

// A value of more than sixteen bytes is refused.
#[unsafe(no_mangle)]
pub extern "C" fn lomvuze_test_leaf(position: &[u8; 4], value: &[u8], out: &mut [u8; 32]) -> u32
    ensures answer { result ≡ leaf_answer (length value.now) }
    ensures out { out.new ≡ written result (digest (0x00 ∷ (position.now ++ value.now))) out.old }
{
    if value.len() > 16 {
        return 1;
    }
    let hashed = hash::leaf(*position, value);
    out.copy_from_slice(&hashed.digest);
    0
}

#[unsafe(no_mangle)]
pub extern "C" fn lomvuze_test_node(left: &[u8; 32], right: &[u8; 32], out: &mut [u8; 32])
    ensures { out.new ≡ digest (0x01 ∷ (left.now ++ right.now)) }
{
    let hashed = hash::node(*left, *right);
    out.copy_from_slice(&hashed.digest);
}

// The digests of four messages side by side, of which each stands padded in `blocks % 3` blocks.
#[unsafe(no_mangle)]
pub extern "C" fn lomvuze_test_side_by_side(
    messages: &[[u8; 128]; 4],
    blocks: usize,
    out: &mut [[u8; 32]; 4],
)
    ensures { (i : ℕ) → i < 4 → get_or out.new i [] ≡ bytes (hash H₀ (get_or messages.now i []) (blocks % 3)) 8 }
{
    *out = lanes::digests(messages, blocks % 3);
}

// The digest of a message, fed into a running hash in pieces of `step` bytes.
fn in_pieces(message: &[u8], step: usize) -> [u8; 32]
    requires { (length message.now < 2 ^ 61) × (0 < step) }
    ensures { result ≡ digest message.now }
{
    let mut state = Running::new();
    for piece in message.chunks(step) {
        state = state.feed(piece);
    }
    state.digest()
}

// The digest of a message that is fed into a running hash in pieces of `step` bytes, of which the last may have fewer. Pieces of no bytes are refused, and
// so is a message of 2^61 bytes or more.
#[unsafe(no_mangle)]
pub extern "C" fn lomvuze_test_running(message: &[u8], step: usize, out: &mut [u8; 32]) -> u32
    ensures answer { result ≡ running_answer step (length message.now) }
    ensures out { out.new ≡ written result (digest message.now) out.old }
{
    if (message.len() >= 0x2000000000000000) | (step == 0) {
        return 1;
    }
    *out = in_pieces(message, step);
    0
}

// The digest of an inner node: its byte and two digests, fed into a running hash.
fn fed_node(left: [u8; 32], right: [u8; 32]) -> [u8; 32]
    ensures { result ≡ digest (0x01 ∷ (left ++ right)) }
{
    Running::new()
        .feed(&[0x01])
        .feed(&left)
        .feed(&right)
        .digest()
}

#[unsafe(no_mangle)]
pub extern "C" fn lomvuze_test_running_node(left: &[u8; 32], right: &[u8; 32], out: &mut [u8; 32])
    ensures { out.new ≡ digest (0x01 ∷ (left.now ++ right.now)) }
{
    *out = fed_node(*left, *right);
}
