// Plans the matrices of data/plan.bin and compares each word with the list there. A case is m, n, t, the m + 1 offsets,
// the t columns, W and the W words; all numbers are u32, little-endian.
#![tactic(auto)]

ghost use Rattle.std.specs.Prelude.{◌≡◌, ◌≤◌, length, IfOk};

use cases::{Broken, Ran, begins_with, decode, run_all};
use csr::Rows;
use std::{fs, io};

// What stands in the index memory before.
const OLD: u32 = 77;

// More cases than the file has: a case has at least four words.
const MOST_CASES: u32 = 16384;

// The words of plan.bin are fewer, and the words of a plan in it.
const FILE_WORDS: usize = 65_536;

const PLAN_WORDS: usize = 4096;

// One case, cut out: whether plan answers W and writes the words.
fn planned(m: u32, n: u32, offsets: &[u32], columns: &[u32], words: &[u32]) -> bool {
    let mut index = [OLD; PLAN_WORDS];
    ipm_common::plan(
        m as usize,
        n as usize,
        &Rows { offsets, columns },
        &mut index,
    ) == Ok(words.len())
        && begins_with(&index, words, OLD)
}

// The next `count` words, and those behind them.
fn cut(s: &[u32], count: usize) -> Result<(&[u32], &[u32]), Broken>
    ensures { IfOk result (λ parts. (length parts.0.now ≡ count) × (length parts.1.now ≤ length s.now)) }
{
    s.split_at_checked(count).ok_or(Broken)
}

// The case at a place, where there is one.
fn run_case(s: &[u32], at: usize) -> Result<Option<Ran>, Broken> {
    if s.len() <= at {
        return Ok(None);
    }
    let (head, rest) = cut(&s[at..], 3)?;
    let (offsets, rest) = cut(rest, head[0] as usize + 1)?;
    let (columns, rest) = cut(rest, head[2] as usize)?;
    let (count, rest) = cut(rest, 1)?;
    let (words, rest) = cut(rest, count[0] as usize)?;
    Ok(Some(Ran {
        right: planned(head[0], head[1], offsets, columns, words),
        next: s.len() - rest.len(),
    }))
}

fn main(rt: HostRuntime) -> io::Result<()> {
    let bytes = fs::read(&rt, "plan.bin")?;
    let mut words = [0u32; FILE_WORDS];
    let s = decode(bytes.as_slice(), &mut words);
    let (tally, whole) = run_all(|at| run_case(s, at), MOST_CASES);
    println!(rt; "{tally}")?;
    if whole.is_err() {
        println!(rt; "the file is broken")?;
    }
    Ok(())
}
