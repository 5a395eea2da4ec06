// The plan: the sixteen lists of a matrix, by the Rust's `from_matrix` with its transpose.
#![tactic(auto)]

ghost use Rattle.std.specs.Prelude.{◌≡◌, ◌+◌, ◌*◌, ◌<◌, ◌≤◌, length};
ghost use Rattle.base.specs.Cat.{Wrote};
ghost use Rattle.lists.specs.Lists.{shape, plan_of};
ghost use Rattle.csr.specs.Csr.{Accepted, max_places};
ghost use Rattle.transpose.specs.Bins.{Room};
ghost use Rattle.ipm_common.specs.Plan.{Enough, told_plan, plan_verdict, plan_index, Answered, Tallied};
ghost use Rattle.csr.specs.Questions.{max_rows, max_columns, max_entries};

use csr::{Matrix, Refusal, Rows};
use layout::Plan;
use pair_lists::{FactorRows, Source};

// How long the memories are that a plan is made in, for few rows and columns and for as many as there may be: where each row of the factor starts, the factor's pairs, and a word for each column.
// Fixed memories, here and where a plan is compared: the project has no heap.
pub const FEW_STARTS: usize = Plan::FEW_ROWS + 1;

pub const FEW_PAIRS: usize = Plan::FEW_ROWS * FEW_STARTS / 2;

pub const FEW_BINS: usize = Plan::FEW_COLUMNS + 1;

pub const MAX_STARTS: usize = Plan::MAX_ROWS + 1;

pub const MAX_PAIRS: usize = Plan::MAX_ROWS * MAX_STARTS / 2;

pub const MAX_BINS: usize = Plan::MAX_COLUMNS + 1;

// The sixteen lists. A memory over the columns is marked, two more are counted in.
fn put_plan(
    source: &Source<'_>,
    mark: &mut [u32],
    next: &mut [u32],
    again: &mut [u32],
    index: &mut [u32],
) -> usize
    requires { (length (plan_of (shape source.now.rows.offsets.now source.now.rows.columns.now) source.now.m source.now.n) ≤ length index.old) × (source.now.n ≤ length mark.old) × Room source.now.m source.now.n next.old × Room source.now.m source.now.n again.old }
    ensures { Wrote index.old index.new 0 (plan_of (shape source.now.rows.offsets.now source.now.rows.columns.now) source.now.m source.now.n) result }
{
    let a = source.put_ten(mark, index, 0);
    let b = source.factor_rows().transpose(next, again, index, a);
    source.matrix_rows().transpose(next, again, index, b)
}

// E, S and D.
#[derive(Clone, Copy)]
struct Counts {
    e: u32,
    s: usize,
    d: u32,
}

// E is a count of ones, S and D + E count what pairs of rows share, of the matrix and of the factor.
fn count_all(source: &Source<'_>, next: &mut [u32]) -> Counts
    requires { Room source.now.m source.now.n next.old }
    ensures { Tallied source.now.rows.offsets.now source.now.rows.columns.now source.now.m result.e result.s result.d }
{
    let e = pattern::count(source.factor.p, source.m);
    base::fill_front(next, source.n, 0);
    let s = source.matrix_rows().count_rows(next);
    base::fill_front(next, source.m, 0);
    let b = source.factor_rows().count_rows(next);
    Counts {
        e,
        s,
        d: (b as u32) - e,
    }
}

// W.
fn words(m: usize, n: usize, t: usize, counts: Counts) -> usize
    requires { (m ≤ max_rows) × (n ≤ max_columns) × (t ≤ max_entries) × (counts.s ≤ max_rows * max_places) }
    ensures { result ≡ 5 * counts.e + 3 * counts.s + 2 * counts.d + 3 * m + n + 2 * t + 5 }
{
    let e = counts.e as usize;
    let d = counts.d as usize;
    5 * e + 3 * counts.s + 2 * d + 3 * m + n + 2 * t + 5
}

// Question 6, and the plan of a matrix, made in memories of such lengths.
// Not part of its caller, so that these memories lie on the stack only while the plan is made.
#[inline(never)]
fn plan_in<const STARTS: usize, const PAIRS: usize, const BINS: usize>(
    matrix: &Matrix<'_>,
    index: &mut [u32],
) -> Result<usize, Refusal>
    requires { Enough matrix.now.m matrix.now.n STARTS PAIRS BINS }
    ensures { Answered matrix.now.m matrix.now.n matrix.now.rows.offsets.now matrix.now.rows.columns.now index.old index.new (told_plan result) }
{
    let mut p = [0u64; pattern::WORDS];
    let mut lindptr = [0u32; STARTS];
    let mut lindices = [0u8; PAIRS];
    let mut mark = [0u32; BINS];
    let mut next = [0u32; BINS];
    let mut again = [0u32; BINS];
    pattern::pattern(&matrix.rows, matrix.m, &mut p);
    pair_lists::list_rows(&p, matrix.m, &mut lindptr, &mut lindices);
    let source = Source {
        m: matrix.m,
        n: matrix.n,
        rows: matrix.rows,
        factor: FactorRows {
            p: &p,
            lindptr: &lindptr,
            lindices: &lindices,
        },
    };
    let t = count_all(&source, &mut next);
    let w = words(matrix.m, matrix.n, matrix.rows.columns.len(), t);
    if index.len() < w {
        return Err(Refusal::IndexMemory);
    }
    put_plan(&source, &mut mark, &mut next, &mut again, index);
    Ok(w)
}

// Question 6, and the plan of a matrix.
pub fn plan_accepted(matrix: &Matrix<'_>, index: &mut [u32]) -> Result<usize, Refusal>
    ensures { Answered matrix.now.m matrix.now.n matrix.now.rows.offsets.now matrix.now.rows.columns.now index.old index.new (told_plan result) }
{
    if matrix.m <= Plan::FEW_ROWS && matrix.n <= Plan::FEW_COLUMNS {
        plan_in::<FEW_STARTS, FEW_PAIRS, FEW_BINS>(matrix, index)
    } else {
        plan_in::<MAX_STARTS, MAX_PAIRS, MAX_BINS>(matrix, index)
    }
}

// Questions 1 to 6, and after six yeses the plan; answers its words.
// As `sizes::sizes` is, but for what it asks and tells.
pub fn plan(m: usize, n: usize, rows: &Rows<'_>, index: &mut [u32]) -> Result<usize, Refusal>
    ensures answer { told_plan result ≡ plan_verdict m n rows.now.offsets.now rows.now.columns.now (length index.old) }
    ensures words { index.new ≡ plan_index m n rows.now.offsets.now rows.now.columns.now index.old }
{
    let matrix = csr::ask(m, n, rows, rows.columns.len())?;
    plan_accepted(&matrix, index)
}
