// The sizes of a claim, and what follows from them: where numbers and roots lie in an item, and the tree over a codeword.
ghost use Rattle.std.specs.Prelude.{◌≡◌, true, false, MatchOption, ◌+◌, ◌*◌, ◌≤◌};
ghost use Rattle.code.specs.Points.{is_witness_count, depth};
ghost use Rattle.tree.specs.Layout.{opening_size};
ghost use Rattle.theory.specs.Combination.{quotient_size};
ghost use Rattle.theory.specs.Sizes.{sizes};
ghost use Rattle.theory.specs.Fp.{item_front, item_size};

// 2^m rows, n public inputs and k witness numbers.
#[derive(Clone, Copy)]
pub struct Sizes {
    pub m: usize,
    pub n: usize,
    pub k: usize,
    ghost m_most: { m ≤ 6 },
    ghost n_least: { 1 ≤ n },
    ghost n_most: { n ≤ 64 },
    ghost k_count: { is_witness_count k ≡ true },
    ghost k_least: { 2 ≤ k },
    ghost k_most: { k ≤ 64 },
}

impl Sizes {
    // Check 2 of m, n and k.
    pub fn new(m: u32, n: u32, k: u32) -> Option<Self>
        ensures { MatchOption result (sizes m n k ≡ false) (λ s. (sizes m n k ≡ true) × (s.m ≡ m) × (s.n ≡ n) × (s.k ≡ k)) }
    {
        if !((m <= 6) & (1 <= n) & (n <= 64) & code::is_witness_count(k)) {
            return None;
        }
        Some(Sizes {
            m: m as usize,
            n: n as usize,
            k: k as usize,
        })
    }

    // The numbers e, r and x of an item.
    pub fn item_numbers(self) -> usize
        ensures { result ≡ 1 + self.m + self.n }
    {
        1 + self.m + self.n
    }

    // The bytes of an item before its root.
    pub fn item_front(self) -> usize
        ensures { result ≡ item_front self.m self.n }
    {
        4 * self.item_numbers()
    }

    // All bytes of an item.
    pub fn item_size(self) -> usize
        ensures { result ≡ item_size self.m self.n }
    {
        self.item_front() + 32
    }

    // The numbers from one item to the next, of which the root takes eight.
    pub fn stride(self) -> usize
        ensures { 4 * result ≡ item_size self.m self.n }
    {
        self.item_numbers() + 8
    }

    // The levels of the tree over the 4k values of a codeword.
    pub fn depth(self) -> usize
        ensures { (result ≡ depth self.k) × (result ≤ 8) }
    {
        code::depth_of(self.k)
    }

    // The bytes of an opening.
    pub fn opening_size(self) -> usize
        ensures { (result ≡ opening_size (depth self.k)) × (result ≤ 260) }
    {
        4 + 32 * self.depth()
    }

    // The number of coefficients of the quotient of l items.
    pub fn quotient_size(self, l: usize) -> usize
        requires { (1 ≤ l) × (l ≤ 8) }
        ensures { (result ≡ quotient_size self.m l) × (result ≤ 49) }
    {
        (l - 1) * (self.m + 1)
    }
}
