// The lists of a file, copied to an index memory.
#![tactic(auto)]

ghost use Rattle.std.specs.Prelude.{◌+◌, ◌≤◌, length};
ghost use Rattle.base.specs.Cat.{join, Wrote};
ghost use Rattle.plan_file.specs.Tables.{wide};
ghost use Rattle.plan_file.specs.Verdicts.{lists_in};
ghost use Rattle.file_numbers.specs.Agree.{numbers_of};
ghost use Rattle.file_copy.specs.Copied.{given_words, Words};

use file_walk::WholeFile;
use plan_file::{Meaning, WORD_BYTES};

// The numbers of a body, and the place after them.
fn copy_body(body: &[u8], index: &mut [u32], start: usize) -> usize
    requires { start + length (numbers_of body.now) ≤ length index.old }
    ensures { Wrote index.old index.new start (numbers_of body.now) result }
{
    let (words, _) = body.as_chunks::<WORD_BYTES>();
    for (k, word) in words.iter().enumerate() {
        index[start + k] = u32::from_le_bytes(*word);
    }
    start + words.len()
}

// The numbers of a list; a note has none.
fn copy_record(meaning: Meaning, body: &[u8], index: &mut [u32], at: usize) -> usize
    requires { Words meaning × (at + length (given_words meaning body.now) ≤ length index.old) }
    ensures { Wrote index.old index.new at (given_words meaning body.now) result }
{
    // An arm for each: no two do the same, so there is no step to hand over.
    match meaning {
        Meaning::Listed(..) => copy_body(body, index, at),
        Meaning::Note | Meaning::Neither => at,
    }
}

// The lists of a file, one after the other, and the place after them.
pub fn copy_plan(file: WholeFile<'_>, index: &mut [u32]) -> usize
    requires { length (join (lists_in wide file.bytes.now)) ≤ length index.old }
    ensures { Wrote index.old index.new 0 (join (lists_in wide file.entry.bytes.now)) result }
{
    let bytes = file.bytes;
    let mut at = 0;
    let mut to = 0;
    // The lengths of the records stand in the file: the walk has no index to count.
    while at < bytes.len() {
        let r = file_walk::record_at(bytes, at);
        to = copy_record(r.meaning, r.body, index, to);
        at = r.end;
    }
    to
}
