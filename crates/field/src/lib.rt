// The prime field of p = 15 * 2^27 + 1 elements. An element is a number below p.
#![tactic(auto)]

ghost use Rattle.std.specs.Prelude.{◌≡◌, ◌*◌, ◌<◌};
ghost use Rattle.algebra.specs.Polynomial.{pow};
ghost use Rattle.field.specs.BabyBear.{p, R, val, ofℕ, ◌⊕◌, ⊝◌, ◌⊖◌, ◌⊗◌};

mod inverses;

pub use inverses::Inverses;

pub const P: u32 = 2013265921;

// Takes p off a sum of two numbers below p, or of one below p and one up to p. It has no branch: `over` is 0 or 1.
pub fn reduce(sum: u32) -> u32
    requires { sum < 2 * p }
    ensures { result ≡ val (ofℕ sum) }
{
    let over = (P <= sum) as u32;
    sum - over * P
}

pub fn add(a: u32, b: u32) -> u32
    requires { (a < p) × (b < p) }
    ensures { result ≡ val (ofℕ a ⊕ ofℕ b) }
{
    reduce(a + b)
}

pub fn sub(a: u32, b: u32) -> u32
    requires { (a < p) × (b < p) }
    ensures { result ≡ val (ofℕ a ⊖ ofℕ b) }
{
    reduce(a + (P - b))
}

pub fn neg(a: u32) -> u32
    requires { a < p }
    ensures { result ≡ val (⊝ ofℕ a) }
{
    reduce(P - a)
}

// Operands need not be below p.
pub fn mul(a: u32, b: u32) -> u32
    ensures { result ≡ val (ofℕ a ⊗ ofℕ b) }
{
    ((a as u64) * (b as u64) % (P as u64)) as u32
}

// a to the power of e, by squaring and multiplying.
pub fn pow(a: u32, e: u32) -> u32
    ensures { result ≡ val (pow R (ofℕ a) e) }
{
    let mut base = a;
    let mut left = e;
    let mut acc: u32 = 1;
    while 0 < left {
        if left % 2 == 1 {
            acc = mul(acc, base);
        }
        base = mul(base, base);
        left = left / 2;
    }
    acc
}
