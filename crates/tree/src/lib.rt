// The Merkle hash tree of RFC 6962, section 2.1, over lists of numbers: roots and openings.
#![tactic(auto)]

ghost use Rattle.std.specs.Prelude.{◌≡◌, true, ◌++◌, ◌+◌, ◌-◌, ◌*◌, ◌%◌, ◌^◌, ◌≤◌, ◌<◌, length, take, drop};
ghost use Rattle.std.proofs.lemmas.List.Edits.{sets};
ghost use Rattle.hash.specs.Sha256.{block_count, digest};
ghost use Rattle.numbers.specs.Numbers.{numbers, bytes4, all_below};
ghost use Rattle.tree.specs.Merkle.{leaf_string, node_string, joined, blocks_of, root as root_of, sibling as sibling_of};
ghost use Rattle.tree.specs.Entry.{entry, entries_from, entries};
ghost use Rattle.tree.specs.Heap.{IsHeap, heap_path};
ghost use Rattle.tree.specs.Layout.{part, opening_size, opened_value, opened_root, opened_strings, flat, own_opening, own_openings};

mod levels;

use hash::Hashed;

// Hashes the leaf for a value's bytes at a position.
fn leaf(position: usize, value: &[u8]) -> Hashed
    requires { length value.now ≤ 16 }
    ensures { (result.digest ≡ digest (leaf_string (entry position value.now))) × (result.blocks ≡ block_count (leaf_string (entry position value.now))) }
{
    hash::leaf(numbers::bytes_of(position), value)
}

// The digest of the leaf for a number at a position. Hashing is not inlined where it would add its arrays to the stack of a whole tree.
#[inline(never)]
fn number_leaf(position: usize, number: u32) -> [u8; 32]
    ensures { result ≡ digest (leaf_string (entry position (bytes4 number))) }
{
    leaf(position, &numbers::bytes_of(number as usize)).digest
}

// The digest of an inner node, of those of its two children.
#[inline(never)]
fn node(left: [u8; 32], right: [u8; 32]) -> [u8; 32]
    ensures { result ≡ digest (node_string left right) }
{
    hash::node(left, right).digest
}

// The root of the tree over 2 ^ depth values, at most 64, of which the first has the position `first`: all digests are worked out.
fn small_root(values: &[u32], depth: usize, first: usize) -> [u8; 32]
    requires { (length values.now ≡ 2 ^ depth) × (length values.now ≤ 64) × (first + length values.now < 2 ^ 64) }
    ensures { result ≡ root_of digest depth (entries_from first values.now) }
{
    let mut nodes = [[0u8; 32]; 128];
    levels::fill(&mut nodes, values, depth, first);
    nodes[1]
}

// The same for any count of values: those of more than 64 are halved.
fn subtree(values: &[u32], depth: usize, first: usize) -> [u8; 32]
    requires { (length values.now ≡ 2 ^ depth) × (first + length values.now < 2 ^ 64) }
    ensures { result ≡ root_of digest depth (entries_from first values.now) }
{
    let count = values.len();
    if count <= 64 {
        return small_root(values, depth, first);
    }
    let half = count / 2;
    let l = subtree(&values[..half], depth - 1, first);
    let r = subtree(&values[half..], depth - 1, first + half);
    node(l, r)
}

// The root of the tree over 2 ^ depth values.
pub fn root(values: &[u32], depth: usize) -> [u8; 32]
    requires { length values.now ≡ 2 ^ depth }
    ensures { result ≡ root_of digest depth (entries values.now) }
{
    subtree(values, depth, 0)
}

// The value of the opening at a place of the buffer.
pub fn value_at(s: &[u8], at: usize) -> u32
    requires { at + 4 ≤ length s.now }
    ensures { result ≡ opened_value s.now at }
{
    numbers::get(&s[at..at + 4], 0)
}

// The digest at a place of the buffer.
pub fn digest_at(s: &[u8], at: usize) -> [u8; 32]
    requires { at + 32 ≤ length s.now }
    ensures { result ≡ part s.now at 32 }
{
    let mut d = [0u8; 32];
    d.copy_from_slice(&s[at..at + 32]);
    d
}

// Hashes the parent, of the own digest at a place and its sibling's.
fn parent(place: usize, own: [u8; 32], sibling: [u8; 32]) -> Hashed
    ensures { (result.digest ≡ digest (joined (place % 2) own sibling)) × (result.blocks ≡ block_count (joined (place % 2) own sibling)) }
{
    if place % 2 == 0 {
        hash::node(own, sibling)
    } else {
        hash::node(sibling, own)
    }
}

// Where the opening at a place of the buffer leads for a position, and the blocks of the leaf and of each inner node up to there.
pub fn opening_root(s: &[u8], at: usize, depth: usize, position: usize) -> Hashed
    requires { at + opening_size depth ≤ length s.now }
    ensures { (result.digest ≡ opened_root digest s.now at depth position) × (result.blocks ≡ blocks_of block_count (opened_strings digest s.now at depth position)) }
{
    let Hashed {
        mut digest,
        mut blocks,
    } = leaf(position, &s[at..at + 4]);
    let mut place = position;
    for level in 0..depth {
        let above = parent(place, digest, digest_at(s, at + 4 + 32 * level));
        digest = above.digest;
        blocks += above.blocks;
        place /= 2;
    }
    Hashed { digest, blocks }
}

// Writes a value at a place of the buffer.
fn write_value(out: &mut [u8], at: usize, v: u32)
    requires { at + 4 ≤ length out.old }
    ensures { out.new ≡ take at out.old ++ bytes4 v ++ drop (at + 4) out.old }
{
    numbers::put(&mut out[at..at + 4], 0, v);
}

// Writes a digest at a place of the buffer.
pub fn write_digest(out: &mut [u8], at: usize, d: [u8; 32])
    requires { at + 32 ≤ length out.old }
    ensures { out.new ≡ take at out.old ++ d ++ drop (at + 32) out.old }
{
    out[at..at + 32].copy_from_slice(&d);
}

// The other child of a node's parent, by its place in the level or by its index among all digests.
fn sibling(place: usize) -> usize
    requires { place + 1 < 2 ^ 64 }
    ensures { result ≡ sibling_of place }
{
    place + 1 - 2 * (place % 2)
}

// Writes the path of the leaf with an index out of the digests of its tree, which has 2 ^ depth leaves.
fn write_path(nodes: &[[u8; 32]; 512], depth: usize, leaf: usize, out: &mut [u8], at: usize)
    requires { (depth ≤ 8) × (2 ^ depth ≤ leaf) × (leaf < 2 * 2 ^ depth) × (at + 32 * depth ≤ length out.old) }
    ensures { out.new ≡ sets out.old at (flat (heap_path nodes.now depth (leaf - 2 ^ depth))) }
{
    let mut n = leaf;
    for level in 0..depth {
        write_digest(out, at + 32 * level, nodes[sibling(n)]);
        n /= 2;
    }
}

// Writes the opening of a position at a place of the buffer, out of the values and the digests of their tree.
fn write_opening(
    values: &[u32],
    nodes: &[[u8; 32]; 512],
    depth: usize,
    position: usize,
    out: &mut [u8],
    at: usize,
)
    requires { (length values.now ≡ 2 ^ depth) × (depth ≤ 8) × (position < 2 ^ depth) × (at + opening_size depth ≤ length out.old) × IsHeap digest depth (entries values.now) nodes.now }
    ensures { out.new ≡ sets out.old at (own_opening digest depth values.now position) }
{
    write_value(out, at, values[position]);
    write_path(nodes, depth, values.len() + position, out, at + 4);
}

// Writes the openings of the positions in the tree over 2 ^ depth values, one after the other. They fill the buffer.
#[inline(never)]
pub fn write_openings(values: &[u32], depth: usize, positions: &[u8], out: &mut [u8])
    requires { (length values.now ≡ 2 ^ depth) × (depth ≤ 8) × (all_below (2 ^ depth) (numbers positions.now) ≡ true) × (length out.old ≡ length (numbers positions.now) * opening_size depth) }
    ensures { out.new ≡ own_openings digest depth values.now (numbers positions.now) }
{
    let mut nodes = [[0u8; 32]; 512];
    levels::fill(&mut nodes, values, depth, 0);
    let size = 4 + 32 * depth;
    for q in 0..positions.len() / 4 {
        let position = numbers::get(positions, q) as usize;
        write_opening(values, &nodes, depth, position, out, q * size);
    }
}
