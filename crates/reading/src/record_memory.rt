// Memory for a record within the limits.
ghost use Rattle.std.specs.Prelude.{◌≡◌, replicate};

use record::{LANES, MOST_COLUMNS, MOST_ENTRIES, MOST_ROWS, TOLERANCES};

// The offsets and the columns.
pub const MOST_SHORTS: usize = MOST_ROWS + 1 + MOST_ENTRIES;

// The values, the tolerances, b and c.
pub const MOST_FLOATS: usize = MOST_ENTRIES + TOLERANCES + LANES * MOST_ROWS + LANES * MOST_COLUMNS;

pub const MOST_OUTPUT: usize = LANES * MOST_COLUMNS;

pub const MOST_PRICES: usize = LANES * MOST_ROWS;

// E at most: an entry for each pair of rows.
const MOST_STORED: usize = MOST_ROWS * (MOST_ROWS + 1) / 2;

// S at most: for each pair of rows half of what they have together.
const MOST_SHARED: usize = MOST_ENTRIES * (MOST_ROWS + 1) / 2;

// D at most: a product for each three rows.
const MOST_PRODUCTS: usize = (MOST_ROWS - 1) * MOST_ROWS * (MOST_ROWS + 1) / 6;

// W and F at most.
pub const INDEX_WORDS: usize = 5 * MOST_STORED
    + 3 * MOST_SHARED
    + 2 * MOST_PRODUCTS
    + 3 * MOST_ROWS
    + MOST_COLUMNS
    + 2 * MOST_ENTRIES
    + 5;

pub const WORK_FLOATS: usize = LANES
    * (5 * MOST_COLUMNS + 3 * MOST_ROWS + 2 * MOST_ROWS + MOST_STORED);

// N numbers, all of them x.
// Fixed memories: the project has no heap.
pub fn filled<T: Copy, const N: usize>(x: T) -> [T; N]
    ensures { result ≡ replicate N x }
{
    [x; N]
}
