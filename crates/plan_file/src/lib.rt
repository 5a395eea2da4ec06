// A plan's file: what its bytes mean, questions 14 to 16, and the theorems about them.
// The bytes of a record's length, of its kind, and of the two together: its head. Then the bytes of a list's number.
#![tactic(auto)]

pub const LENGTH_BYTES: usize = 4;

pub const KIND_BYTES: usize = 2;

pub const HEAD_BYTES: usize = LENGTH_BYTES + KIND_BYTES;

pub const WORD_BYTES: usize = 4;

// What a record's kind says: the number of a list and the bytes of each of its numbers, a note, or neither.
#[derive(Clone, Copy)]
pub enum Meaning {
    Listed(usize, usize),
    Note,
    Neither,
}
