// What rows of the matrix share, found by marks: mark[c] is above off[i] just where row i holds column c.
#![tactic(auto)]

ghost use Rattle.std.specs.Prelude.{◌≡◌, ◌+◌, ◌<◌, ◌≤◌, length, get_or, All, count_by};
ghost use Rattle.csr.specs.Csr.{RowOf, max_places};
ghost use Rattle.csr.specs.Pattern.{row};
ghost use Rattle.base.specs.Numbers.{Below};
ghost use Rattle.csr.specs.Counts.{common};
ghost use Rattle.base.specs.Cat.{Wrote};
ghost use Rattle.lists.specs.Lists.{shape, chosen, shared_of};
ghost use Rattle.shared_columns.specs.Marked.{MarkedOver, RowMarked, hit, along_of, marked};

use base::put;
use csr::Rows;
use lists::Take;

// The columns of row i marked, each by 1 and its place, over the marks of earlier rows.
pub fn mark_row(rows: &Rows<'_>, i: usize, mark: &mut [u32])
    requires { RowOf rows.now.offsets.now rows.now.columns.now i (length mark.old) }
    ensures { MarkedOver mark.old mark.new (get_or rows.now.offsets.now i 0) (row rows.now.offsets.now rows.now.columns.now i) }
{
    for k in rows.offsets[i]..rows.offsets[i + 1] {
        mark[rows.columns[k as usize] as usize] = k + 1;
    }
}

fn choose(take: Take, x: u32, y: u32, z: u32) -> u32
    ensures { result ≡ chosen take x y z }
{
    // An arm for each: no two do the same, so there is no step to hand over.
    match take {
        Take::Left => x,
        Take::Right => y,
        Take::Column => z,
    }
}

// A word for a marked column.
fn hit_one(take: Take, mark: &[u32], lo: u32, y: u32, v: u32, index: &mut [u32], at: usize) -> usize
    requires { (v < length mark.now) × (at + length (hit take mark.now lo y v) ≤ length index.old) }
    ensures { Wrote index.old index.new at (hit take mark.now lo y v) result }
{
    let w = mark[v as usize];
    if lo < w {
        put(index, at, choose(take, w - 1, y, v))
    } else {
        at
    }
}

// The marked columns of a list.
fn hits(
    take: Take,
    mark: &[u32],
    lo: u32,
    y: u32,
    b: &[u32],
    index: &mut [u32],
    start: usize,
) -> usize
    requires { Below (length mark.now) b.now × (y + length b.now ≤ max_places) × (start + length (along_of (hit take mark.now lo) y b.now) ≤ length index.old) }
    ensures { Wrote index.old index.new start (along_of (hit take mark.now lo) y b.now) result }
{
    let mut at = start;
    // As `places` of pair_lists, but for what is written and of what: the definition and the lemmas are shared.
    for (q, v) in b.iter().enumerate() {
        at = hit_one(take, mark, lo, y + (q as u32), *v, index, at);
    }
    at
}

// What rows i and j of the matrix share, by the marks of row i.
pub fn put_shared(
    take: Take,
    rows: &Rows<'_>,
    mark: &[u32],
    i: usize,
    j: usize,
    index: &mut [u32],
    start: usize,
) -> usize
    requires { RowMarked rows.now.offsets.now rows.now.columns.now mark.now i j × (start + length (shared_of (shape rows.now.offsets.now rows.now.columns.now) take i j) ≤ length index.old) }
    ensures { Wrote index.old index.new start (shared_of (shape rows.now.offsets.now rows.now.columns.now) take i j) result }
{
    let off = rows.offsets;
    hits(take, mark, off[i], off[j], rows.row(j), index, start)
}

// How many columns of the list are marked.
fn count_marked(mark: &[u32], lo: u32, b: &[u32]) -> usize
    requires { All (λ v. v < length mark.now) b.now }
    ensures { result ≡ count_by (marked mark.now lo) b.now }
{
    let mut n = 0;
    // A loop: `filter` with `count` is a branch for each column, 25.7 microseconds for 18.4 in a plan of 16 rows.
    for v in b {
        if lo < mark[*v as usize] {
            n += 1;
        }
    }
    n
}

// How many columns rows i and j share. Row i is marked.
pub fn count_shared(rows: &Rows<'_>, mark: &[u32], i: usize, j: usize) -> usize
    requires { RowMarked rows.now.offsets.now rows.now.columns.now mark.now i j }
    ensures { (result ≡ common (row rows.now.offsets.now rows.now.columns.now i) (row rows.now.offsets.now rows.now.columns.now j)) × (result ≤ length rows.now.columns.now) }
{
    count_marked(mark, rows.offsets[i], rows.row(j))
}
