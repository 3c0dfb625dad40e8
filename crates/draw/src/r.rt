// Drawing r for casting, from root and x. Checks 2, 3 and 13.
ghost use Rattle.std.specs.Prelude.{◌≡◌, ◌*◌, ◌≤◌, length};
ghost use Rattle.algebra.specs.Lists.{build};
ghost use Rattle.numbers.specs.Numbers.{bytes};
ghost use Rattle.theory.specs.Checks.{answer};
ghost use Rattle.checks.specs.Refusals.{answer_of};
ghost use Rattle.draw.specs.Draw.{r_of, draw_r_fits, draw_r_checks, draw_r};

use crate::hashed;
use checks::refusal::{Refusal, ensure};
use checks::{elements, leading};
use running::Running;

// Check 2.
fn fits(m: u32, n: u32, root: &[u8], x: &[u8], r: &[u8]) -> bool
    ensures { result ≡ draw_r_fits m n root.now x.now r.now }
{
    checks::sizes::claim_sizes(m, n)
        & (root.len() == 32)
        & (x.len() == 4 * (n as usize))
        & (r.len() == 4 * (m as usize))
}

// Checks 2, 3 and 13, in this order.
fn verdict(m: u32, n: u32, root: &[u8], x: &[u8], r: &[u8]) -> Result<(), Refusal>
    ensures { answer_of result ≡ answer (draw_r_checks m n root.now x.now r.now) }
{
    ensure(fits(m, n, root, x, r), Refusal::Sizes)?;
    ensure(elements::elements_below(x), Refusal::Numbers)?;
    ensure(leading::leading_one(n as usize, x), Refusal::LeadingOne)
}

// Writes m numbers: what they have in common is fed in once.
fn write(m: usize, root: &[u8], x: &[u8], r: &mut [u8])
    requires { (m ≤ 6) × (length root.now ≡ 32) × (length x.now ≤ 256) × (length r.old ≡ 4 * m) }
    ensures { r.new ≡ bytes (build m (r_of root.now x.now)) }
{
    let common = Running::new().feed(&[0x05]).feed(root).feed(x);
    for j in 0..m {
        let d = common.feed(&(j as u32).to_le_bytes()).digest();
        numbers::put(r, j, hashed::eight(d, field::P));
    }
}

// Runs checks 2, 3 and 13, and writes the m numbers of r.
pub fn draw_r(m: u32, n: u32, root: &[u8], x: &[u8], r: &mut [u8]) -> Result<(), Refusal>
    ensures answer { answer_of result ≡ (draw_r m n root.now x.now r.old).answer }
    ensures r { r.new ≡ (draw_r m n root.now x.now r.old).r }
{
    verdict(m, n, root, x, r)?;
    write(m as usize, root, x, r);
    Ok(())
}
