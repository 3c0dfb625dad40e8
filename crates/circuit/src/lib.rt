// The digest that names a circuit: SHA-256 of its sizes and its three lists, fed into a running hash as they lie.
#![tactic(auto)]

ghost use Rattle.std.specs.Prelude.{◌≡◌, ◌++◌, ◌≤◌, ◌<◌, length};
ghost use Rattle.hash.specs.Sha256.{digest};
ghost use Rattle.running.specs.Fed.{Fed, Feeds};
ghost use Rattle.circuit.specs.CircuitString.{list_string, sizes_string, circuit_string};

use running::Running;

// The byte 0x06, m, n and k are fed in.
fn sizes(m: usize, n: usize, k: usize) -> Running
    requires { (m < 4294967296) × (n < 4294967296) × (k < 4294967296) }
    ensures { (result.len ≡ 13) × Fed result (sizes_string m n k) }
{
    Running::new()
        .feed(&[0x06])
        .feed(&(m as u32).to_le_bytes())
        .feed(&(n as u32).to_le_bytes())
        .feed(&(k as u32).to_le_bytes())
}

// Feeds in the count of a list's entries, and the entries.
fn feed_list(h: Running, b: &[u8]) -> Running
    requires { (h.len ≤ 1048576) × (length b.now ≤ 12288) }
    ensures { Feeds (list_string b.now) h result }
{
    let count = b.len() / 12;
    h.feed(&(count as u32).to_le_bytes()).feed(b)
}

// The digest of a circuit.
pub fn digest(m: usize, n: usize, k: usize, a: &[u8], b: &[u8], c: &[u8]) -> [u8; 32]
    requires m_bound { (m < 4294967296) × (n < 4294967296) × (k < 4294967296) }
    requires a_len_bound { (length a.now ≤ 12288) × (length b.now ≤ 12288) × (length c.now ≤ 12288) }
    ensures { result ≡ digest (circuit_string m n k a.now b.now c.now) }
{
    let lists = feed_list(feed_list(feed_list(sizes(m, n, k), a), b), c);
    lists.digest()
}
