// A plan's file, written to lent bytes.
#![tactic(auto)]

ghost use Rattle.std.specs.Prelude.{◌≡◌, ℕ, ◌+◌, ◌*◌, ◌≤◌, List, length};
ghost use Rattle.base.specs.Cat.{Wrote};
ghost use Rattle.layout.specs.Layout.{top_word};
ghost use Rattle.layout.specs.Lists.{sizes_of, words_at};
ghost use Rattle.plan_file.specs.Written.{wide_writer, written_file};
ghost use Rattle.file_write.specs.Writable.{Writable};

mod records;

use layout::Plan;
use plan_file::{HEAD_BYTES, WORD_BYTES};

// The bytes of the file of a plan with so many words.
pub fn file_bytes(words: usize) -> usize
    requires { 4 * words + 96 ≤ top_word }
    ensures { result ≡ 4 * words + 96 }
{
    WORD_BYTES * words + HEAD_BYTES * Plan::LISTS
}

// The sixteen records of the lists that stand one after the other in the index memory, and the place after them.
pub fn put_file(file: &mut [u8], index: &[u32], plan: Plan) -> usize
    requires { (words_at plan ≤ top_word) × ((lists : ℕ → List ℕ) × Writable lists (sizes_of plan) index.now (length file.old)) }
    ensures { (lists : ℕ → List ℕ) → Writable lists (sizes_of plan) index.now (length file.old) → Wrote file.old file.new 0 (written_file wide_writer lists) result }
{
    let sizes = plan.sizes();
    let mut at = 0;
    let mut from = 0;
    for (k, size) in sizes.iter().enumerate() {
        let end = from + *size;
        at = records::put_record(file, at, k + 1, &index[from..end]);
        from = end;
    }
    at
}
