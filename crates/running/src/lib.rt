// A running hash: SHA-256 (FIPS 180-4) of a message that is fed in field by field, and closed by a digest.
#![tactic(auto)]

ghost use Rattle.std.specs.Prelude.{◌≡◌, List, [], ℕ, ◌+◌, ◌^◌, ◌<◌, length};
ghost use Rattle.hash.specs.Sha256.{digest};
ghost use Rattle.running.specs.Fed.{Fed, Feeds};

use hash::compress::State;
use hash::{compress, message};

// The hash value after the whole blocks fed in, the bytes since at the front of `rest`, and how many bytes were fed in.
#[derive(Clone, Copy)]
pub struct Running {
    pub value: [u32; 8],
    pub rest: [u8; 64],
    pub len: usize,
}

impl Running {
    // Nothing is fed in yet.
    pub fn new() -> Self
        ensures { Fed result [] }
    {
        Self {
            value: hash::H0,
            rest: [0u8; 64],
            len: 0,
        }
    }

    // Feeds in the bytes of a slice. Where they fill the unfinished block, that one is compressed, and so are the whole blocks behind it.
    pub fn feed(mut self, s: &[u8]) -> Self
        requires { self.len + length s.now < 2 ^ 61 }
        ensures { Feeds s.now self result }
    {
        let at = self.len % 64;
        let room = 64 - at;
        self.len += s.len();
        if s.len() < room {
            self.rest[at..at + s.len()].copy_from_slice(s);
            return self;
        }
        self.rest[at..].copy_from_slice(&s[..room]);
        let value = self.value;
        let start = State { value, blocks: 0 };
        let filled = compress::blocks(start, &self.rest);
        let behind = &s[room..];
        let State { value, .. } = compress::blocks(filled, behind);
        self.value = value;
        let left = &behind[64 * (behind.len() / 64)..];
        self.rest[0..left.len()].copy_from_slice(left);
        self
    }

    // The digest of all that was fed in, one after the other: the last blocks hold the bytes since and the padding.
    pub fn digest(self) -> [u8; 32]
        requires { self.len < 2 ^ 61 }
        ensures { (m : List ℕ) → Fed self m → result ≡ digest m }
    {
        let at = self.len % 64;
        let mut last = [0u8; 128];
        last[..at].copy_from_slice(&self.rest[..at]);
        message::close(&mut last, at, self.len);
        let start = State {
            value: self.value,
            blocks: 0,
        };
        let all = compress::blocks(start, &last[..64 * ((at + 8) / 64 + 1)]);
        message::bytes(all.value)
    }
}
