// Questions 14 and 15, over a lent file.
ghost use Rattle.std.specs.Prelude.{◌≡◌, true, false, ◌≤◌, length, drop, MatchOption};
ghost use Rattle.plan_file.specs.Records.{starts_whole};
ghost use Rattle.plan_file.specs.Tables.{wide};
ghost use Rattle.file_walk.specs.Headed.{Headed, RecordAt};
ghost use Rattle.plan_file.specs.Verdicts.{whole_file, ordered_file};

use crate::kinds;
use plan_file::{HEAD_BYTES, KIND_BYTES, LENGTH_BYTES, Meaning};

// A record of a file: what its kind means, its body, and where it ends.
#[derive(Clone, Copy)]
pub struct Record<'a> {
    pub meaning: Meaning,
    pub body: &'a [u8],
    pub end: usize,
}

// A file that got a yes at question 14.
#[derive(Clone, Copy)]
pub struct WholeFile<'a> {
    pub bytes: &'a [u8],
    ghost whole: { whole_file wide bytes.now ≡ true },
}

// The record that stands at a place.
pub fn record_at(file: &[u8], at: usize) -> Record<'_>
    requires { Headed file.now at }
    ensures { RecordAt file.now at result }
{
    let end = at + LENGTH_BYTES + record::le32(file, at);
    Record {
        meaning: kinds::wide_meaning(record::le16(file, at + LENGTH_BYTES)),
        body: &file[at + HEAD_BYTES..end],
        end,
    }
}

// The record that stands at a place, if it is neither cut short nor shorter than its kind.
#[tactic(auto, using(crate::proofs::Walks::no_length_at, crate::proofs::Walks::no_room_at, crate::proofs::Walks::no_kind_at, crate::proofs::Walks::starts_at))]
fn whole_record(file: &[u8], at: usize) -> Option<Record<'_>>
    requires { at ≤ length file.now }
    ensures { MatchOption result (starts_whole (drop at file.now) ≡ false) (λ r. (starts_whole (drop at file.now) ≡ true) × RecordAt file.now at r) }
{
    let rest = file.len() - at;
    if rest < LENGTH_BYTES {
        return None;
    }
    let size = record::le32(file, at);
    if size > rest - LENGTH_BYTES {
        return None;
    }
    if size < KIND_BYTES {
        return None;
    }
    Some(record_at(file, at))
}

// Question 14: is no record cut short, none shorter than its kind, and each list's body whole?
pub fn is_whole(file: &[u8]) -> bool
    ensures { result ≡ whole_file wide file.now }
{
    let mut at = 0;
    // The lengths of the records stand in the file: the walk has no index to count.
    while at < file.len() {
        let Some(r) = whole_record(file, at) else {
            return false;
        };
        if !kinds::is_whole_body(r.meaning, r.body.len()) {
            return false;
        }
        at = r.end;
    }
    true
}

// The file, if it gets a yes at question 14.
pub fn whole(file: &[u8]) -> Option<WholeFile<'_>>
    ensures { MatchOption result (whole_file wide file.now ≡ false) (λ w. (whole_file wide file.now ≡ true) × (w.bytes.now ≡ file.now)) }
{
    if is_whole(file) {
        Some(WholeFile { bytes: file })
    } else {
        None
    }
}

// Question 15: is each record the next list or a note, and the sixteenth list there?
pub fn is_ordered(file: WholeFile<'_>) -> bool
    ensures { result ≡ ordered_file wide 1 file.entry.bytes.now }
{
    let bytes = file.bytes;
    let mut at = 0;
    let mut next = 1;
    // By the records' lengths, as above.
    while at < bytes.len() {
        let r = record_at(bytes, at);
        let Some(after) = kinds::next_after(r.meaning, next) else {
            return false;
        };
        next = after;
        at = r.end;
    }
    next == kinds::LISTS + 1
}
