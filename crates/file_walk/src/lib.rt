// Questions 14 and 15, over the records of a lent file.
#![tactic(auto)]

mod kinds;
mod walk;

pub use walk::{Record, WholeFile, is_ordered, is_whole, record_at, whole};
