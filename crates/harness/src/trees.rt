// Hash trees over 2^depth values. A depth above 8 is refused.
ghost use Rattle.std.specs.Prelude.{◌≡◌, ◌^◌, ◌≤◌, ◌<◌, length};
ghost use Rattle.hash.specs.Sha256.{digest};
ghost use Rattle.tree.specs.Merkle.{root};
ghost use Rattle.tree.specs.Entry.{entries};
ghost use Rattle.tree.specs.Layout.{opened_root, opening_size, own_opening};
ghost use Rattle.harness.specs.Answers.{permitted_answer};
ghost use Rattle.theory.specs.Checks.{written};
ghost use Rattle.harness.specs.Permitted.{tree_permitted, opening_permitted, opened_permitted};

fn tree_permitted(depth: usize, count: usize) -> bool
    ensures { result ≡ tree_permitted depth count }
{
    depth <= 8 && count == 1 << depth
}

fn opened_permitted(depth: usize, size: usize) -> bool
    ensures { result ≡ opened_permitted depth size }
{
    depth <= 8 && size == 4 + 32 * depth
}

fn opening_permitted(depth: usize, count: usize, position: usize, size: usize) -> bool
    ensures { result ≡ opening_permitted depth count position size }
{
    tree_permitted(depth, count) & (position < count) & opened_permitted(depth, size)
}

// Writes the root of the tree over the values.
#[unsafe(no_mangle)]
pub extern "C" fn lomvuze_test_root(values: &[u32], depth: usize, out: &mut [u8; 32]) -> u32
    ensures answer { result ≡ permitted_answer (tree_permitted depth (length values.now)) }
    ensures out { out.new ≡ written result (root digest depth (entries values.now)) out.old }
{
    if !tree_permitted(depth, values.len()) {
        return 1;
    }
    *out = tree::root(values, depth);
    0
}

fn write_opening(values: &[u32], depth: usize, position: usize, out: &mut [u8])
    requires { (length values.now ≡ 2 ^ depth) × (depth ≤ 8) × (position < 2 ^ depth) × (length out.old ≡ opening_size depth) }
    ensures { out.new ≡ own_opening digest depth values.now position }
{
    let positions = numbers::bytes_of(position);
    tree::write_openings(values, depth, &positions, out);
}

// Writes the opening of a position of the tree over the values.
#[unsafe(no_mangle)]
pub extern "C" fn lomvuze_test_opening(
    values: &[u32],
    depth: usize,
    position: usize,
    out: &mut [u8],
) -> u32
    ensures answer { result ≡ permitted_answer (opening_permitted depth (length values.now) position (length out.old)) }
    ensures out { out.new ≡ written result (own_opening digest depth values.now position) out.old }
{
    if !opening_permitted(depth, values.len(), position, out.len()) {
        return 1;
    }
    write_opening(values, depth, position, out);
    0
}

// Writes where an opening leads for a position.
#[unsafe(no_mangle)]
pub extern "C" fn lomvuze_test_leads(
    opening: &[u8],
    depth: usize,
    position: usize,
    out: &mut [u8; 32],
) -> u32
    ensures answer { result ≡ permitted_answer (opened_permitted depth (length opening.now)) }
    ensures out { out.new ≡ written result (opened_root digest opening.now 0 depth position) out.old }
{
    if !opened_permitted(depth, opening.len()) {
        return 1;
    }
    let hashed = tree::opening_root(opening, 0, depth, position);
    out.copy_from_slice(&hashed.digest);
    0
}
