// The reading program's record: from bytes to sizes and rows of numbers.
#![tactic(auto)]

mod fields;
mod little;

pub use fields::{
    LANES, MOST_COLUMNS, MOST_ENTRIES, MOST_ROWS, OFFSETS_AT, SHORT_BYTES, TOLERANCES, read_floats,
    read_header, read_shorts,
};
pub use little::{le16, le32};

// The sizes that a record starts with: rows, columns, slack rows, the limit of tests and the stored entries.
#[derive(Clone, Copy, Debug, PartialEq, Eq)]
pub struct RecordSizes {
    pub m: usize,
    pub n: usize,
    pub s: usize,
    pub limit: usize,
    pub t: usize,
}
