// The text of an answer, written to a lent buffer.
#![tactic(auto)]

ghost use Rattle.std.specs.Prelude.{◌≡◌, [], ◌∷◌, ◌++◌, ◌+◌, ◌*◌, ◌<◌, ◌≤◌, length};
ghost use Rattle.base.specs.Cat.{cat, Wrote};
ghost use Rattle.answer_text.specs.Text.{whole_bytes, float_bytes, line_bytes, accepted_bytes, refused_bytes, input_bytes, whole_text, float_text, line_text, accepted_text, refused_text, input_text};

use base::put_all;
use csr::Numbered;

const SPACE: u8 = b' ';

const LINE_FEED: u8 = b'\n';

// A text, and a byte after it.
fn put_then(out: &mut [u8], at: usize, s: &[u8], after: u8) -> usize
    requires { at + length s.now < length out.old }
    ensures { Wrote out.old out.new at (s.now ++ (after ∷ [])) result }
{
    let end = put_all(out, at, s);
    base::put(out, end, after)
}

// A number in decimal digits, and a byte after it.
fn put_whole(out: &mut [u8], at: usize, x: u64, after: u8) -> usize
    requires { at + whole_bytes ≤ length out.old }
    ensures wrote { Wrote out.old out.new at (whole_text x after) result }
    ensures upper_bound { result ≤ at + whole_bytes }
{
    let mut digits = [0u8; 20];
    let k = io::decimal(x, &mut digits);
    put_then(out, at, &digits[..k], after)
}

// A float's pattern in hexadecimal digits, and a byte after it.
fn put_float(out: &mut [u8], at: usize, x: f64, after: u8) -> usize
    requires { at + float_bytes ≤ length out.old }
    ensures wrote { Wrote out.old out.new at (float_text x after) result }
    ensures value { result ≡ at + float_bytes }
{
    let mut digits = [0u8; 16];
    let k = io::hex(root::bits_of(x), 16, &mut digits);
    put_then(out, at, &digits[..k], after)
}

// The four lanes of a column.
fn put_line(out: &mut [u8], at: usize, lanes: &[f64; 4]) -> usize
    requires { at + line_bytes ≤ length out.old }
    ensures wrote { Wrote out.old out.new at (line_text lanes.now 0) result }
    ensures value { result ≡ at + line_bytes }
{
    let [first, second, third, fourth] = *lanes;
    let next = put_float(out, at, first, SPACE);
    let next = put_float(out, next, second, SPACE);
    let next = put_float(out, next, third, SPACE);
    put_float(out, next, fourth, LINE_FEED)
}

// A line for each of n columns.
fn put_lines(out: &mut [u8], start: usize, x: &[f64], n: usize) -> usize
    requires { (start + line_bytes * n ≤ length out.old) × (4 * n ≤ length x.now) }
    ensures { Wrote out.old out.new start (cat n (line_text x.now)) result }
{
    let (columns, _) = x.as_chunks::<4>();
    let mut at = start;
    for lanes in &columns[..n] {
        at = put_line(out, at, lanes);
    }
    at
}

// The answer to an accepted solve, at the start of out.
pub fn put_accepted(out: &mut [u8], test: usize, x: &[f64], n: usize) -> usize
    requires { (accepted_bytes n ≤ length out.old) × (4 * n ≤ length x.now) }
    ensures { Wrote out.old out.new 0 (accepted_text test x.now n) result }
{
    let word = put_all(out, 0, b"accepted ");
    let line = put_whole(out, word, test as u64, LINE_FEED);
    put_lines(out, line, x, n)
}

// The answer to a refused solve.
pub fn put_refused(out: &mut [u8], no: Numbered) -> usize
    requires { refused_bytes ≤ length out.old }
    ensures { Wrote out.old out.new 0 (refused_text no.question no.place no.lane) result }
{
    let word = put_all(out, 0, b"refused ");
    let a = put_whole(out, word, no.question as u64, SPACE);
    let b = put_whole(out, a, no.place as u64, SPACE);
    put_whole(out, b, no.lane as u64, LINE_FEED)
}

// The answer to bytes that do not match.
pub fn put_input(out: &mut [u8]) -> usize
    requires { input_bytes ≤ length out.old }
    ensures { Wrote out.old out.new 0 input_text result }
{
    put_all(out, 0, b"input\n")
}
