// Reads a sheet on standard input and writes its claims listing to standard output.
#![tactic(auto)]

ghost use Rattle.std.specs.Prelude.{◌≤◌, IfOk};

use std::io;
use std::io::{Read, Write};

// Reads until the buffer is full or the input ends, and returns how many bytes it read.
fn read_full<R: Read>(input: &mut R, buffer: &mut [u8; 65536]) -> io::Result<usize>
    ensures { IfOk result (λ n. n ≤ 65536) }
{
    let mut done = 0;
    while done < buffer.len() {
        let n = input.read(&mut buffer[done..])?;
        if n == 0 {
            break;
        }
        done += n;
    }
    Ok(done)
}

fn main(rt: HostRuntime) -> io::Result<()> {
    let mut sheet = [0u8; 65536];
    let length = read_full(&mut rt.reader(), &mut sheet)?;
    let mut out = [0u8; 2122];
    let end = listing::listing::write(&sheet[..length], &mut out);
    io::writer(&rt).write_all(&out[..end])
}
