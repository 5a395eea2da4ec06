// The six lists of the two transposes: the rows' entries are looked up where their columns have got to.
ghost use Rattle.std.specs.Prelude.{◌≡◌, true, false, ◌+◌, ◌<◌, ◌≤◌, length};
ghost use Rattle.base.specs.Cat.{Wrote};
ghost use Rattle.base.specs.Sums.{sum};
ghost use Rattle.lists.specs.Lists.{shape, ends_of};
ghost use Rattle.lists.specs.declared.Side.TheVariants.{Matrix};
ghost use Rattle.transpose.specs.Bins.{room_of, Starts, cols_of};
ghost use Rattle.plan_file.specs.Verdicts.{same};
ghost use Rattle.file_numbers.specs.Agree.{numbers_of};
ghost use Rattle.file_lists.specs.Matched.{MatchedTo, entries_of};

use file_numbers::number_at;
use lists::What;
use transpose::{SparseRows, of_entry, put_ends, step};

// The entries of row i, each looked up at its column's place.
fn match_row(rows: &SparseRows<'_>, what: What, i: usize, next: &mut [u32], body: &[u8]) -> bool
    requires { (i < rows.now.m) × (rows.now.n ≤ length next.old) × (length (numbers_of body.now) ≡ sum rows.now.n (room_of rows.now.offsets.now (cols_of rows.now.columns) rows.now.m)) × MatchedTo (numbers_of body.now) rows.now.offsets.now (cols_of rows.now.columns) what rows.now.m rows.now.n i next.old }
    ensures on { result ≡ true → MatchedTo (numbers_of body.now) rows.now.offsets.now (cols_of rows.now.columns) what rows.now.m rows.now.n (i + 1) next.new }
    ensures other { result ≡ false → same (numbers_of body.now) (entries_of rows.now.offsets.now (cols_of rows.now.columns) what rows.now.m rows.now.n) ≡ false }
{
    let columns = rows.columns;
    for k in rows.offsets[i] as usize..rows.offsets[i + 1] as usize {
        let e = columns.at(k);
        let x = of_entry(what, i as u32, k as u32);
        let q = step(next, e);
        if number_at(body, q) != x as usize {
            return false;
        }
    }
    true
}

// The entries of all rows, from the starts of the columns.
pub fn match_rows(rows: &SparseRows<'_>, what: What, next: &mut [u32], body: &[u8]) -> bool
    requires { (rows.now.n ≤ length next.old) × (length (numbers_of body.now) ≡ sum rows.now.n (room_of rows.now.offsets.now (cols_of rows.now.columns) rows.now.m)) × Starts next.old rows.now.n (room_of rows.now.offsets.now (cols_of rows.now.columns) rows.now.m) }
    ensures { result ≡ same (numbers_of body.now) (entries_of rows.now.offsets.now (cols_of rows.now.columns) what rows.now.m rows.now.n) }
{
    for i in 0..rows.m {
        if !match_row(rows, what, i, next, body) {
            return false;
        }
    }
    true
}

// The ends of the columns in one memory, and their starts in another.
pub fn put_starts(
    rows: &SparseRows<'_>,
    next: &mut [u32],
    again: &mut [u32],
    made: &mut [u32],
) -> usize
    requires { (rows.now.n < length next.old) × (rows.now.n < length again.old) × (rows.now.n < length made.old) }
    ensures ends { Wrote made.old made.new 0 (ends_of (shape rows.now.offsets.now (cols_of rows.now.columns)) Matrix rows.now.m rows.now.n) result }
    ensures starts { Starts next.new rows.now.n (room_of rows.now.offsets.now (cols_of rows.now.columns) rows.now.m) }
{
    base::fill_front(next, rows.n, 0);
    rows.count_rows(next);
    put_ends(rows.n, made, next, again, 0)
}
