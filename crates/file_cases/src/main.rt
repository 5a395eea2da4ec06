// Reads and writes the plans' files of data/files.bin and compares the answers and all memory with what stands there. A
// case is twelve numbers, the offsets, the columns, the words that the index memory has first after the call, and a
// file's bytes, filled up with zeros to whole numbers. The twelve: 1 for a writing call and 0 for a reading one; m, n;
// how many offsets, how many columns; the words of index memory and, for a writing call, the bytes of file memory lent;
// the answer's question, 0 for a yes, its place and its lane; how many words; how many bytes of the file, which is read,
// or is what a writing call leaves. All numbers are u32, little-endian.
#![tactic(auto)]

ghost use Rattle.std.specs.Prelude.{◌*◌, ◌<◌, ◌≤◌, length, IfSome};

use cases::{Ran, WORD_BYTES, begins_with, decode, run_all};
use csr::{Numbered, Refusal, Rows};
use std::{fs, io};

// The numbers before a case's lists, and where each stands.
// Numbers: so a case has them in the file.
const HEAD: usize = 12;

const WRITES: usize = 0;

const ROWS: usize = 1;

const COLUMNS: usize = 2;

const OFFSETS_LEN: usize = 3;

const COLUMNS_LEN: usize = 4;

const INDEX_LEN: usize = 5;

const LENT_BYTES: usize = 6;

const QUESTION: usize = 7;

const PLACE: usize = 8;

const LANE: usize = 9;

const WORDS_LEN: usize = 10;

const BYTES_LEN: usize = 11;

// The numbers of files.bin are fewer, and so are its cases.
const DATA_WORDS: usize = 65_536;

const MOST_CASES: u32 = 65_536;

// What stands in index memory and file memory before.
const OLD_WORD: u32 = 77;

const OLD_BYTE: u8 = 77;

// No case lends more.
const MOST_WORDS: usize = 1024;

const MOST_BYTES: usize = 4096;

// One case, cut out of the data.
#[derive(Clone, Copy)]
struct Case<'a> {
    head: [u32; HEAD],
    offsets: &'a [u32],
    columns: &'a [u32],
    words: &'a [u32],
    bytes: &'a [u8],
}

// The first so many of a memory, or all of it.
fn lent<T>(memory: &mut [T], count: u32) -> &mut [T] {
    let end = memory.len().min(count as usize);
    &mut memory[..end]
}

// A call's answer as a case has it: question 0 is a yes, whose place is what the call tells.
fn told(answer: Result<usize, Refusal>) -> Numbered {
    match answer {
        Ok(place) => Numbered {
            question: 0,
            place,
            lane: 0,
        },
        Err(refusal) => Numbered::from(refusal),
    }
}

impl Case<'_> {
    fn wanted(&self) -> Numbered {
        Numbered {
            question: self.head[QUESTION],
            place: self.head[PLACE] as usize,
            lane: self.head[LANE],
        }
    }

    fn rows(&self) -> Rows<'_> {
        Rows {
            offsets: self.offsets,
            columns: self.columns,
        }
    }

    fn is_read_right(&self) -> bool {
        let mut index = [OLD_WORD; MOST_WORDS];
        let answer = file_calls::read_plan(
            self.head[ROWS] as usize,
            self.head[COLUMNS] as usize,
            &self.rows(),
            self.bytes,
            lent(&mut index, self.head[INDEX_LEN]),
        );
        told(answer) == self.wanted() && begins_with(&index, self.words, OLD_WORD)
    }

    fn is_written_right(&self) -> bool {
        let mut index = [OLD_WORD; MOST_WORDS];
        let mut file = [OLD_BYTE; MOST_BYTES];
        let answer = file_calls::write_plan(
            self.head[ROWS] as usize,
            self.head[COLUMNS] as usize,
            &self.rows(),
            lent(&mut index, self.head[INDEX_LEN]),
            lent(&mut file, self.head[LENT_BYTES]),
        );
        told(answer) == self.wanted()
            && begins_with(&index, self.words, OLD_WORD)
            && begins_with(&file, self.bytes, OLD_BYTE)
    }

    fn is_right(&self) -> bool {
        if self.head[WRITES] == 0 {
            self.is_read_right()
        } else {
            self.is_written_right()
        }
    }
}

// The next `count` numbers, or all there are, and those behind them.
fn cut(s: &[u32], count: u32) -> (&[u32], &[u32])
    ensures { length result.1.now ≤ length s.now }
{
    s.split_at(s.len().min(count as usize))
}

// The case at a place, where there is one. What is cut short counts as wrong.
fn run_case(s: &[u32], bytes: &[u8], at: usize) -> Option<Ran>
    requires { 4 * length s.now ≤ length bytes.now }
    ensures { IfSome result (λ ran. (at < ran.next) × (ran.next ≤ length s.now)) }
{
    if s.len() <= at {
        return None;
    }
    let Some((head, rest)) = s[at..].split_first_chunk::<HEAD>() else {
        return Some(Ran {
            right: false,
            next: s.len(),
        });
    };
    let (offsets, rest) = cut(rest, head[OFFSETS_LEN]);
    let (columns, rest) = cut(rest, head[COLUMNS_LEN]);
    let (words, rest) = cut(rest, head[WORDS_LEN]);
    let (_, file) = bytes.split_at(WORD_BYTES * (s.len() - rest.len()));
    let (_, rest) = cut(rest, head[BYTES_LEN].div_ceil(WORD_BYTES as u32));
    let case = Case {
        head: *head,
        offsets,
        columns,
        words,
        bytes: &file[..file.len().min(head[BYTES_LEN] as usize)],
    };
    Some(Ran {
        right: case.is_right(),
        next: s.len() - rest.len(),
    })
}

fn main(rt: HostRuntime) -> io::Result<()> {
    let bytes = fs::read(&rt, "files.bin")?;
    let mut words = [0u32; DATA_WORDS];
    let s = decode(bytes.as_slice(), &mut words);
    let (tally, _) = run_all(|at| Ok(run_case(s, bytes.as_slice(), at)), MOST_CASES);
    println!(rt; "{tally}")
}
