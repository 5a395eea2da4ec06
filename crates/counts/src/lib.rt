// E, S and D, counted along parents: no pattern is kept.
#![tactic(auto)]

ghost use Rattle.std.specs.Prelude.{◌≡◌, ◌+◌, ◌≤◌, ◌<◌, length, get_or, set};
ghost use Rattle.layout.specs.Layout.{plan_of};
ghost use Rattle.csr.specs.Csr.{Accepted, max_places};
ghost use Rattle.csr.specs.Counts.{count_e, count_s, count_d, Counted};
ghost use Rattle.csr.specs.Questions.{max_rows, max_columns};
ghost use Rattle.pattern.specs.Links.{or_else};
ghost use Rattle.counts.specs.Climb.{Adopts, Climbing, Climbed};
ghost use Rattle.counts.specs.Rows.{Rows as Noted, Fit, Countable};

use csr::{Matrix, Rows};
use layout::Plan;

// The counts so far.
#[derive(Clone, Copy)]
struct Tally {
    stored: usize,
    shared: usize,
    products: usize,
}

// What is noted of each row and of each column.
#[derive(Drop)]
struct Notes<const ROWS: usize, const COLUMNS: usize> {
    // One more than the last row that met this row.
    mark: [u32; ROWS],
    // One more than the row's parent, or 0.
    parent: [u32; ROWS],
    // The entries of the row's column below the diagonal.
    column: [u32; ROWS],
    // The rows that have this column.
    seen: [u32; COLUMNS],
    // One more than the first of them, or 0.
    first: [u32; COLUMNS],
}

// One more at place k; what stands there then.
fn bump(table: &mut [u32], k: usize) -> usize
    requires { (k < length table.old) × (get_or table.old k 0 ≤ max_places) }
    ensures { (table.new ≡ set table.old k (get_or table.old k 0 + 1)) × (result ≡ get_or table.old k 0 + 1) }
{
    table[k] += 1;
    table[k] as usize
}

// Row i is noted at place k if no row is; the row that is noted there then.
fn adopt(table: &mut [u32], k: usize, i: usize) -> usize
    requires { (k < length table.old) × (i < max_rows) }
    ensures { Adopts table.old table.new k (i + 1) × (result + 1 ≡ or_else (get_or table.old k 0) (i + 1)) }
{
    let f = table[k];
    if f == 0 {
        table[k] = (i as u32) + 1;
        i
    } else {
        (f - 1) as usize
    }
}

impl<const ROWS: usize, const COLUMNS: usize> Notes<ROWS, COLUMNS> {
    // Climb from a row along parents until row i or a row that is marked. Each row met is an entry of row i, and adds to the products
    // the entries that its column has by then.
    fn climb(&mut self, at: usize, i: usize, mut tally: Tally) -> Tally
        requires { Climbing i at self.old.mark self.old.parent self.old.column tally.stored tally.products }
        ensures climbed { Climbed i at i self.old.mark self.old.parent self.old.column self.new.mark self.new.parent self.new.column tally.stored tally.products result.stored result.products }
        ensures shared { result.shared ≡ tally.shared }
        ensures columns { (self.new.seen ≡ self.old.seen) × (self.new.first ≡ self.old.first) }
    {
        let stamp = (i as u32) + 1;
        let mut k = at;
        // Follows parents: there is nothing to count.
        while k < i {
            if self.mark[k] == stamp {
                return tally;
            }
            self.mark[k] = stamp;
            tally.stored += 1;
            tally.products += bump(&mut self.column, k);
            k = adopt(&mut self.parent, k, i);
        }
        tally
    }

    // Row i: each of its columns adds to S the rows that have it by now, and a climb from the first of them.
    fn count_row(&mut self, rows: &Rows<'_>, i: usize, mut tally: Tally) -> Tally
        requires { Fit rows.now.offsets.now rows.now.columns.now i ROWS COLUMNS × Noted rows.now.offsets.now rows.now.columns.now i self.old.mark self.old.parent self.old.column self.old.seen self.old.first tally.stored tally.shared tally.products }
        ensures { Noted rows.now.offsets.now rows.now.columns.now (i + 1) self.new.mark self.new.parent self.new.column self.new.seen self.new.first result.stored result.shared result.products }
    {
        for c in rows.row(i) {
            let c = *c as usize;
            tally.shared += bump(&mut self.seen, c);
            let at = adopt(&mut self.first, c, i);
            tally = self.climb(at, i, tally);
        }
        Tally {
            stored: tally.stored + 1,
            ..tally
        }
    }

    // All m rows.
    fn count(rows: &Rows<'_>, m: usize) -> Tally
        requires { Countable rows.now.offsets.now rows.now.columns.now m ROWS COLUMNS × (ROWS ≤ max_rows) × (COLUMNS ≤ max_columns) }
        ensures { Counted rows.now.offsets.now rows.now.columns.now m result.stored result.shared result.products }
    {
        let mut notes = Self {
            mark: [0; ROWS],
            parent: [0; ROWS],
            column: [0; ROWS],
            seen: [0; COLUMNS],
            first: [0; COLUMNS],
        };
        let mut tally = Tally {
            stored: 0,
            shared: 0,
            products: 0,
        };
        for i in 0..m {
            tally = notes.count_row(rows, i, tally);
        }
        tally
    }
}

// E, S and D of a matrix that is accepted.
// By its parts: a `Matrix` would go through memory.
fn count_accepted(m: usize, n: usize, offsets: &[u32], columns: &[u32]) -> Tally
    requires { Accepted offsets.now columns.now m n }
    ensures { Counted offsets.now columns.now m result.stored result.shared result.products }
{
    let rows = Rows { offsets, columns };
    if m <= Plan::FEW_ROWS && n <= Plan::FEW_COLUMNS {
        Notes::<{ Plan::FEW_ROWS }, { Plan::FEW_COLUMNS }>::count(&rows, m)
    } else {
        Notes::<{ Plan::MAX_ROWS }, { Plan::MAX_COLUMNS }>::count(&rows, m)
    }
}

// The sizes of the plan of a matrix that is accepted: one look at each entry of the matrix, one turn of a climb for each
// entry of the factor below its diagonal.
// Part of each caller, so that the matrix is handed on by its parts: docs/SPEED.md.
#[inline(always)]
pub fn plan_sizes(matrix: &Matrix<'_>, s: usize) -> Plan
    ensures { result ≡ plan_of matrix.now.m matrix.now.n s (length matrix.now.rows.columns.now) (count_e matrix.now.rows.offsets.now matrix.now.rows.columns.now matrix.now.m) (count_s matrix.now.rows.offsets.now matrix.now.rows.columns.now matrix.now.m) (count_d matrix.now.rows.offsets.now matrix.now.rows.columns.now matrix.now.m) }
{
    let Rows { offsets, columns } = matrix.rows;
    let tally = count_accepted(matrix.m, matrix.n, offsets, columns);
    Plan::new(
        matrix.m,
        matrix.n,
        s,
        columns.len(),
        tally.stored,
        tally.shared,
        tally.products,
    )
}
