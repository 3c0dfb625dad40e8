// All digests of a tree in one array, level by level: four leaves or inner nodes side by side, and those that are left one by one. The two functions that
// hash four are not inlined: each has arrays of its own on the stack, which would stand there side by side.
ghost use Rattle.std.specs.Prelude.{◌≡◌, [], ℕ, ◌+◌, ◌*◌, ◌^◌, ◌≤◌, ◌<◌, length, get_or};
ghost use Rattle.std.proofs.lemmas.List.Edits.{sets};
ghost use Rattle.hash.specs.Sha256.{digest};
ghost use Rattle.tree.specs.Merkle.{leaf_string, node_string};
ghost use Rattle.tree.specs.Entry.{entries_from};
ghost use Rattle.tree.specs.Heap.{Leaves, IsHeap};

// The digests of the leaves for four numbers, from index `at` on. The first number of all has the position `first`.
#[inline(never)]
fn four_leaves(values: &[u32], first: usize, at: usize) -> [[u8; 32]; 4]
    requires { (at + 4 ≤ length values.now) × (first + length values.now < 2 ^ 64) }
    ensures { (i : ℕ) → i < 4 → get_or result i [] ≡ digest (leaf_string (get_or (entries_from first values.now) (at + i) [])) }
{
    let mut padded = [[0u8; 128]; 4];
    for i in 0..4 {
        let value = numbers::bytes_of(values[at + i] as usize);
        padded[i] = hash::padded_leaf(numbers::bytes_of(first + at + i), &value);
    }
    lanes::digests(&padded, 1)
}

// The digests of the four inner nodes from n on, of those of their children.
#[inline(never)]
fn four_nodes(nodes: &[[u8; 32]], n: usize) -> [[u8; 32]; 4]
    requires { 2 * n + 8 ≤ length nodes.now }
    ensures { (i : ℕ) → i < 4 → get_or result i [] ≡ digest (node_string (get_or nodes.now (2 * (n + i)) []) (get_or nodes.now (2 * (n + i) + 1) [])) }
{
    let mut padded = [[0u8; 128]; 4];
    for i in 0..4 {
        let child = 2 * (n + i);
        padded[i] = hash::padded_node(nodes[child], nodes[child + 1]);
    }
    lanes::digests(&padded, 2)
}

// Writes the digests of the leaves behind as many places, four at a time and then one by one.
fn fill_leaves(nodes: &mut [[u8; 32]], values: &[u32], first: usize)
    requires { (2 * length values.now ≤ length nodes.old) × (first + length values.now < 2 ^ 64) }
    ensures { Leaves digest (entries_from first values.now) (length values.now) (length values.now) nodes.new }
{
    let count = values.len();
    let fours = count / 4;
    for j in 0..fours {
        let at = count + 4 * j;
        nodes[at..at + 4].copy_from_slice(&four_leaves(values, first, 4 * j));
    }
    for i in 4 * fours..count {
        nodes[count + i] = crate::number_leaf(first + i, values[i]);
    }
}

// Writes all digests of the tree over 2 ^ depth values: the root at 1, and the children of n at 2n and 2n + 1. Inner nodes are worked
// out four at a time, and the three at the top one by one.
pub fn fill(nodes: &mut [[u8; 32]], values: &[u32], depth: usize, first: usize)
    requires { (length values.now ≡ 2 ^ depth) × (2 * length values.now ≤ length nodes.old) × (first + length values.now < 2 ^ 64) }
    ensures { IsHeap digest depth (entries_from first values.now) nodes.new }
{
    fill_leaves(nodes, values, first);
    let count = values.len();
    for j in (1..count / 4).rev() {
        let n = 4 * j;
        let four = four_nodes(nodes, n);
        nodes[n..n + 4].copy_from_slice(&four);
    }
    for n in (1..count.min(4)).rev() {
        nodes[n] = crate::node(nodes[2 * n], nodes[2 * n + 1]);
    }
}
