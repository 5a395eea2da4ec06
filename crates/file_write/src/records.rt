// Records of numbers, written to a lent file.
ghost use Rattle.std.specs.Prelude.{◌≡◌, ◌+◌, ◌*◌, ◌≤◌, ◌<◌, ◌^◌, length};
ghost use Rattle.base.specs.Cat.{Wrote};
ghost use Rattle.plan_file.specs.Bytes.{words};
ghost use Rattle.plan_file.specs.Records.{head_of, record_of};

use plan_file::{KIND_BYTES, WORD_BYTES};

// The numbers that two bytes have.
const SHORT: usize = 0x1_0000;

// A list's numbers, of four bytes each.
fn put_words(file: &mut [u8], start: usize, list: &[u32]) -> usize
    requires { start + 4 * length list.now ≤ length file.old }
    ensures { Wrote file.old file.new start (words 4 list.now) result }
{
    let mut at = start;
    for x in list {
        at = base::put_all(file, at, &x.to_le_bytes());
    }
    at
}

// A record's length and kind, for a body of so many bytes.
// A kind is a number, as it stands in the file.
fn put_head(file: &mut [u8], at: usize, size: usize, kind: usize) -> usize
    requires { (at + 6 ≤ length file.old) × (2 + size < 2 ^ 32) }
    ensures { Wrote file.old file.new at (head_of size kind) result }
{
    let length = (KIND_BYTES + size) as u32;
    let next = base::put_all(file, at, &length.to_le_bytes());
    base::put_all(file, next, &((kind % SHORT) as u16).to_le_bytes())
}

// The record of a list.
pub fn put_record(file: &mut [u8], at: usize, kind: usize, list: &[u32]) -> usize
    requires { (at + 6 + 4 * length list.now ≤ length file.old) × (2 + 4 * length list.now < 2 ^ 32) }
    ensures { Wrote file.old file.new at (record_of kind (words 4 list.now)) result }
{
    let body = put_head(file, at, WORD_BYTES * list.len(), kind);
    put_words(file, body, list)
}
