// Runs the short vectors of FIPS 180-4, leaves, nodes and a tree of RFC 6962, and small cases of the field and the code,
// and prints what the library gives, a line each; behind a digest of SHA-256 the number of blocks.
#![tactic(auto)]

use hash::Hashed;
use std::{fmt, io};

// A digest in hexadecimal.
#[derive(Clone, Copy)]
struct Hex<'a>(&'a [u8; 32]);

impl fmt::Display for Hex<'_> {
    fn fmt<W: fmt::Write>(&self, f: &mut fmt::Formatter<W>) -> fmt::Result {
        for byte in self.0 {
            write!(f, "{byte:02x}")?;
        }
        Ok(())
    }
}

// Prints a name, the digest of a message and its number of blocks.
fn show_hashed(rt: &HostRuntime, name: &str, h: Hashed) -> io::Result<()> {
    println!(rt; "{name} {} {}", Hex(&h.digest), h.blocks)
}

// Prints a name, numbers with a space before each, and a line end.
fn show_numbers(rt: &HostRuntime, name: &str, xs: &[u32]) -> io::Result<()> {
    print!(rt; "{name}")?;
    for x in xs {
        print!(rt; " {x}")?;
    }
    println!(rt)
}

fn main(rt: HostRuntime) -> io::Result<()> {
    show_hashed(&rt, "sha256 empty", hash::digest(b""))?;
    show_hashed(&rt, "sha256 abc", hash::digest(b"abc"))?;
    show_hashed(
        &rt,
        "sha256 two blocks",
        hash::digest(b"abcdbcdecdefdefgefghfghighijhijkijkljklmklmnlmnomnopnopq"),
    )?;
    let left = hash::leaf([0, 0, 0, 0], &[1, 0, 0, 0]);
    let right = hash::leaf([1, 0, 0, 0], &[2, 0, 0, 0]);
    show_hashed(&rt, "leaf 1 at 0", left)?;
    show_hashed(&rt, "leaf 2 at 1", right)?;
    show_hashed(&rt, "node of both", hash::node(left.digest, right.digest))?;
    let values = [5u32, 2013265920, 0, 1, 2, 3, 4, 4294967295];
    println!(rt; "root of 8 {}", Hex(&tree::root(&values, 3)))?;
    show_numbers(
        &rt,
        "field",
        &[
            field::add(2013265920, 1),
            field::sub(0, 1),
            field::mul(2013265920, 2013265920),
            field::pow(31, 2013265920),
            field::Inverses::new().of(2),
        ],
    )?;
    let mut code = [0u32; 8];
    transform::codeword(&[2, 3], &mut code);
    show_numbers(&rt, "codeword of 2 3", &code)
}
