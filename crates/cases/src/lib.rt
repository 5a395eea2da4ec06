// What the programs that run recorded cases share: the words of a data file, the cases one after the other, and how many were right.
#![tactic(auto)]

ghost use Rattle.std.specs.Prelude.{◌≡◌, ◌↔◌, ℕ, ◌+◌, ◌*◌, ◌/◌, ◌<◌, ◌≤◌, not, length, min, slice_index, take, drop, All, IsTrue};
ghost use Rattle.std.specs.Cmp.Lexicographic.{pointwise};
ghost use Rattle.base.specs.Sums.{one};
ghost use Rattle.record.specs.Little.{le4};

use std::fmt;

// The bytes of a word.
pub const WORD_BYTES: usize = 4;

// A case that was run: whether it gave what was wanted, and where the next one starts.
// `right` is itself what is told: it allows no other value.
#[derive(Clone, Copy, Debug, PartialEq, Eq)]
pub struct Ran {
    pub right: bool,
    pub next: usize,
}

// A file that ends within a case.
#[derive(Clone, Copy, Debug, PartialEq, Eq)]
pub struct Broken;

// How many cases were right and how many wrong.
#[derive(Clone, Copy, Debug, Default, PartialEq, Eq)]
pub struct Tally {
    pub right: u32,
    pub wrong: u32,
}

impl Tally {
    // One case more.
    pub fn add(&mut self, right: bool)
        requires { self.old.right + self.old.wrong + 1 ≤ 4294967295 }
        ensures right { self.new.right ≡ self.old.right + one right }
        ensures wrong { self.new.wrong ≡ self.old.wrong + one (not right) }
    {
        if right {
            self.right += 1;
        } else {
            self.wrong += 1;
        }
    }
}

impl fmt::Display for Tally {
    fn fmt<W: fmt::Write>(&self, f: &mut fmt::Formatter<W>) -> fmt::Result {
        write!(f, "{} right, {} wrong", self.right, self.wrong)
    }
}

// Runs the cases from the start on until there is none, and tells whether the file was whole. `most` is more cases than there are.
// The contract only bounds how many were run: what a case gives is for the run to show, and nothing that is proved rests on it.
pub fn run_all<F: Fn(usize) -> Result<Option<Ran>, Broken>>(
    case: F,
    most: u32,
) -> (Tally, Result<(), Broken>)
    requires { F.IsAlwaysCallable case }
    ensures { result.0.right + result.0.wrong ≤ most }
{
    let mut tally = Tally::default();
    let mut at = 0;
    for _ in 0..most {
        match case(at) {
            Ok(Some(ran)) => {
                tally.add(ran.right);
                at = ran.next;
            }
            Ok(None) => return (tally, Ok(())),
            Err(broken) => return (tally, Err(broken)),
        }
    }
    (tally, Err(Broken))
}

// The words of the bytes, as many as there is room for.
pub fn decode<'a>(bytes: &[u8], words: &'a mut [u32]) -> &'a [u32]
    ensures count { length result.now ≡ min (length words.old) (length bytes.now / 4) }
    ensures words { (k : ℕ) → k < length result.now → slice_index result.now k ≡ le4 bytes.now (4 * k) }
{
    let count = words.len().min(bytes.len() / WORD_BYTES);
    for (k, word) in words[..count].iter_mut().enumerate() {
        *word = record::le32(bytes, WORD_BYTES * k) as u32;
    }
    &words[..count]
}

// Whether a memory begins with a list, and is then as it was.
pub fn begins_with<T: Copy + PartialEq>(memory: &[T], list: &[T], old: T) -> bool
    ensures { IsTrue result ↔ (IsTrue (pointwise T.eq (take (length list.now) memory.now) list.now) × All (λ x. IsTrue (T.eq x old)) (drop (length list.now) memory.now)) }
{
    match memory.strip_prefix(list) {
        Some(rest) => rest.iter().all(|x| *x == old),
        None => false,
    }
}
