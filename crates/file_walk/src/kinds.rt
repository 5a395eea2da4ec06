// What the kinds of a file mean.
ghost use Rattle.std.specs.Prelude.{◌≡◌, true, false, ◌<◌, ◌≤◌, MatchOption};
ghost use Rattle.plan_file.specs.Tables.{wide, width_of};
ghost use Rattle.plan_file.specs.Verdicts.{whole_body, is_next, after};

use plan_file::{Meaning, WORD_BYTES};

const FIRST_NOTE: usize = 0x8000;

pub const LISTS: usize = 16;

// Numbers: so the kinds stand in a file.
const FIRST: usize = 1;

// What a kind means: each list has numbers of four bytes.
pub fn wide_meaning(kind: usize) -> Meaning
    ensures { result ≡ wide kind }
{
    match kind {
        FIRST..=LISTS => Meaning::Listed(kind, WORD_BYTES),
        FIRST_NOTE.. => Meaning::Note,
        _ => Meaning::Neither,
    }
}

// A list's body is whole numbers of its width; any other body is free.
pub fn is_whole_body(m: Meaning, size: usize) -> bool
    requires { 0 < width_of m }
    ensures { result ≡ whole_body m size }
{
    // An arm for each kind: there is no step to hand over.
    match m {
        Meaning::Listed(_, width) => size % width == 0,
        Meaning::Note => true,
        Meaning::Neither => true,
    }
}

// The list that is next after a record, if the record is the next list or a note.
pub fn next_after(m: Meaning, next: usize) -> Option<usize>
    requires { next ≤ 17 }
    ensures { MatchOption result (is_next m next ≡ false) (λ r. (is_next m next ≡ true) × (r ≡ after m next)) }
{
    // An arm for each: no two do the same, so there is no step to hand over.
    match m {
        Meaning::Listed(list, _) if list == next => Some(next + 1),
        Meaning::Note => Some(next),
        _ => None,
    }
}
