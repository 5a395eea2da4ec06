// Runs the published vectors of glibc's square root through `root::root_bits`, and the last four of them at a time through `root4::root4`.
// A line of the file is the operand's pattern, a space, the root's pattern and a new line; a pattern is 16 hexadecimal digits.
#![tactic(auto)]

ghost use Rattle.std.specs.Prelude.{◌<◌, ◌≤◌};

use std::{fs, io};

const DIGITS: usize = 16;

const ROOT_AT: usize = 17;

const LINE: usize = 34;

// The value of a hexadecimal digit; any other byte counts as 0.
fn digit(b: u8) -> u64
    ensures { result < 16 }
{
    match b {
        b'0'..=b'9' => u64::from(b - b'0'),
        b'a'..=b'f' => u64::from(b - b'a') + 10,
        _ => 0,
    }
}

fn pattern(digits: &[u8]) -> u64 {
    digits.iter().fold(0, |bits, b| (bits << 4) + digit(*b))
}

fn four_right(x: [f64; 4], wanted: [u64; 4]) -> bool {
    root4::root4(x).map(root::bits_of) == wanted
}

#[derive(Clone, Copy)]
struct Tally {
    lines: usize,
    right: usize,
    right4: usize,
}

fn run_all(s: &[u8]) -> Tally
    ensures { (result.right ≤ result.lines) × (result.right4 ≤ result.lines) }
{
    let (lines, _) = s.as_chunks::<LINE>();
    let mut x = [0.0; 4];
    let mut wanted = [0; 4];
    let mut right = 0;
    let mut right4 = 0;
    for (i, line) in lines.iter().enumerate() {
        let operand = pattern(&line[..DIGITS]);
        let result = pattern(&line[ROOT_AT..ROOT_AT + DIGITS]);
        x[i % 4] = root::value_of(operand);
        wanted[i % 4] = result;
        right += usize::from(root::root_bits(operand) == result);
        right4 += usize::from(four_right(x, wanted));
    }
    Tally {
        lines: lines.len(),
        right,
        right4,
    }
}

fn print_tally(rt: &impl Print, right: usize, lines: usize) -> io::Result<()>
    requires { right ≤ lines }
{
    let wrong = lines - right;
    println!(rt; "{right} right, {wrong} wrong")
}

fn main(rt: HostRuntime) -> io::Result<()> {
    let bytes = fs::read(&rt, "sqrt-glibc.txt")?;
    let tally = run_all(bytes.as_slice());
    print!(rt; "root_bits: ")?;
    print_tally(&rt, tally.right, tally.lines)?;
    print!(rt; "root4: ")?;
    print_tally(&rt, tally.right4, tally.lines)
}
