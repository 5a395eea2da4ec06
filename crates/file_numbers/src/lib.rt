// The numbers of a record's body, compared with a list.
#![tactic(auto)]

ghost use Rattle.std.specs.Prelude.{◌≡◌, ◌+◌, ◌≤◌, ◌<◌, length, get_or, take};
ghost use Rattle.file_numbers.specs.Agree.{numbers_of, agree};

use plan_file::WORD_BYTES;

// How many there are.
pub fn count(body: &[u8]) -> usize
    ensures { result ≡ length (numbers_of body.now) }
{
    body.len() / WORD_BYTES
}

// Number k.
pub fn number_at(body: &[u8], k: usize) -> usize
    requires { k < length (numbers_of body.now) }
    ensures { result ≡ get_or (numbers_of body.now) k 0 }
{
    record::le32(body, WORD_BYTES * k)
}

// Do the first words of a list stand from number `start` on? All are looked at: a loop with one way out is run several numbers at a time.
pub fn is_same(body: &[u8], start: usize, list: &[u32], words: usize) -> bool
    requires { (start + words ≤ length (numbers_of body.now)) × (words ≤ length list.now) }
    ensures { result ≡ agree (numbers_of body.now) start (take words list.now) }
{
    let mut bad = 0;
    for k in 0..words {
        bad += (number_at(body, start + k) != list[k] as usize) as usize;
    }
    bad == 0
}
