// Runs the cases of the file "solve.bin", as tools/oracle/cases describes it: for each the number of bytes, a record, the
// number of bytes, its answer. Writes how many records gave their answer and how many did not.
#![tactic(auto)]

ghost use Rattle.std.specs.Prelude.{◌≡◌, ◌+◌, ◌≤◌, length, IfOk};

use cases::{Broken, Ran, run_all};
use std::{fs, io};

// The bytes of a record or an answer are no more.
const BUFFER: usize = 4096;

// The bytes of a number of bytes.
const COUNT_BYTES: usize = 4;

// More cases than the file has.
const MOST_CASES: u32 = 100_000;

// The bytes whose number comes first, and those behind them.
fn cut_part(s: &[u8]) -> Result<(&[u8], &[u8]), Broken>
    ensures { IfOk result (λ parts. (length parts.0.now ≤ 4096) × (4 + length parts.0.now + length parts.1.now ≡ length s.now)) }
{
    if s.len() < COUNT_BYTES {
        return Err(Broken);
    }
    let count = record::le32(s, 0);
    if count > BUFFER {
        return Err(Broken);
    }
    s[COUNT_BYTES..].split_at_checked(count).ok_or(Broken)
}

// The case at a place, where there is one.
fn run_case(s: &[u8], at: usize) -> Result<Option<Ran>, Broken> {
    if s.len() <= at {
        return Ok(None);
    }
    let (given, rest) = cut_part(&s[at..])?;
    let (wanted, rest) = cut_part(rest)?;
    let mut out = [0u8; BUFFER];
    let count = reading::respond(given, &mut out);
    Ok(Some(Ran {
        right: &out[..count] == wanted,
        next: s.len() - rest.len(),
    }))
}

fn main(rt: HostRuntime) -> io::Result<()> {
    let bytes = fs::read(&rt, "solve.bin")?;
    let s = bytes.as_slice();
    let (tally, whole) = run_all(|at| run_case(s, at), MOST_CASES);
    println!(rt; "{tally}")?;
    if whole.is_err() {
        println!(rt; "the file is broken")?;
    }
    Ok(())
}
