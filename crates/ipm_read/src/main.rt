// The reading program: one record from standard input, its answer to standard output.
#![tactic(auto)]

ghost use Rattle.std.specs.Prelude.{◌≤◌, length, IfOk};

use std::io;
use std::io::{Read, Write};

// The largest record has 2,962 bytes, so a full buffer matches none.
const BUFFER: usize = 4096;

// Reads until the buffer is full or the input ends, and answers how many bytes there are.
fn read_full<R: Read>(input: &mut R, buffer: &mut [u8]) -> io::Result<usize>
    ensures { IfOk result (λ n. n ≤ length buffer.new) }
{
    let mut done = 0;
    // Goes on by what a read gives.
    while done < buffer.len() {
        let n = input.read(&mut buffer[done..])?;
        if n == 0 {
            break;
        }
        done += n;
    }
    Ok(done)
}

fn main(rt: HostRuntime) -> io::Result<()> {
    let mut bytes = [0u8; BUFFER];
    let n = read_full(&mut rt.reader(), &mut bytes)?;
    let mut out = [0u8; BUFFER];
    let k = reading::respond(&bytes[..n], &mut out);
    io::writer(&rt).write_all(&out[..k])
}
