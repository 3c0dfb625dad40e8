// The field. An operand is any number, and stands for its element.
ghost use Rattle.std.specs.Prelude.{◌≡◌, ◌%◌};
ghost use Rattle.algebra.specs.Polynomial.{pow};
ghost use Rattle.field.specs.BabyBear.{R, val, ofℕ, inv, ◌⊕◌, ⊝◌, ◌⊖◌, ◌⊗◌};

// A number's remainder modulo p.
fn element(n: u32) -> u32
    ensures { result ≡ val (ofℕ n) }
{
    n % field::P
}

#[unsafe(no_mangle)]
pub extern "C" fn lomvuze_test_add(a: u32, b: u32) -> u32
    ensures { result ≡ val (ofℕ a ⊕ ofℕ b) }
{
    field::add(element(a), element(b))
}

#[unsafe(no_mangle)]
pub extern "C" fn lomvuze_test_sub(a: u32, b: u32) -> u32
    ensures { result ≡ val (ofℕ a ⊖ ofℕ b) }
{
    field::sub(element(a), element(b))
}

#[unsafe(no_mangle)]
pub extern "C" fn lomvuze_test_neg(a: u32) -> u32
    ensures { result ≡ val (⊝ ofℕ a) }
{
    field::neg(element(a))
}

#[unsafe(no_mangle)]
pub extern "C" fn lomvuze_test_mul(a: u32, b: u32) -> u32
    ensures { result ≡ val (ofℕ a ⊗ ofℕ b) }
{
    field::mul(a, b)
}

#[unsafe(no_mangle)]
pub extern "C" fn lomvuze_test_pow(a: u32, e: u32) -> u32
    ensures { result ≡ val (pow R (ofℕ a) e) }
{
    field::pow(a, e)
}

// The inverse of n modulo 64; that of 0 is 0.
#[unsafe(no_mangle)]
pub extern "C" fn lomvuze_test_inverse(n: u32) -> u32
    ensures { result ≡ val (inv (ofℕ (n % 64))) }
{
    field::Inverses::new().of((n % 64) as usize)
}

// x times y n times over.
#[unsafe(no_mangle)]
pub extern "C" fn lomvuze_test_chain_mul(x: u32, y: u32, n: u32) -> u32
    ensures { result ≡ val (ofℕ x ⊗ pow R (ofℕ y) n) }
{
    let mut acc = element(x);
    for _i in 0..n {
        acc = field::mul(acc, y);
    }
    acc
}

// x plus y n times over.
#[unsafe(no_mangle)]
pub extern "C" fn lomvuze_test_chain_add(x: u32, y: u32, n: u32) -> u32
    ensures { result ≡ val (ofℕ x ⊕ ofℕ n ⊗ ofℕ y) }
{
    let step = element(y);
    let mut acc = element(x);
    for _i in 0..n {
        acc = field::add(acc, step);
    }
    acc
}
