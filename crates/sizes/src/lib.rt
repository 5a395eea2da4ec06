// How much memory a matrix needs, and how much the costliest of m rows: no plan is written.
#![tactic(auto)]

ghost use Rattle.std.specs.Prelude.{◌≡◌};
ghost use Rattle.sizes.specs.Sizes.{told_sizes, told_costliest, slack_verdict, sizes_verdict, costliest_verdict};

use csr::{Matrix, Refusal, Rows};
use layout::LANES;

// E, S, D, W and F.
#[derive(Clone, Copy)]
pub struct MatrixSizes {
    pub stored: usize,
    pub shared: usize,
    pub products: usize,
    pub words: usize,
    pub numbers: usize,
}

// E and D of the costliest pattern.
#[derive(Clone, Copy)]
pub struct MostCounts {
    pub stored: usize,
    pub products: usize,
}

// Question 7, and the sizes of a matrix that is accepted.
fn sizes_accepted(matrix: &Matrix<'_>, s: usize) -> Result<MatrixSizes, Refusal>
    ensures { told_sizes result ≡ slack_verdict matrix.now.m matrix.now.n s matrix.now.rows.offsets.now matrix.now.rows.columns.now }
{
    if matrix.m < s {
        return Err(Refusal::SlackRows);
    }
    let plan = counts::plan_sizes(matrix, s);
    let words = plan.words();
    let numbers = plan.numbers(LANES);
    Ok(MatrixSizes {
        stored: plan.stored,
        shared: plan.shared,
        products: plan.products,
        words,
        numbers,
    })
}

// Questions 1 to 5 and 7, and after these E, S, D, W and F. Any numbers, any lists.
pub fn sizes(m: usize, n: usize, s: usize, rows: &Rows<'_>) -> Result<MatrixSizes, Refusal>
    ensures { told_sizes result ≡ sizes_verdict m n s rows.now.offsets.now rows.now.columns.now }
{
    let matrix = csr::ask(m, n, rows, rows.columns.len())?;
    sizes_accepted(&matrix, s)
}

// Question 1, and after it E and D of m rows that share one column: no m rows have more of either.
pub fn costliest(m: usize) -> Result<MostCounts, Refusal>
    ensures { told_costliest result ≡ costliest_verdict m }
{
    if !csr::rows_right(m) {
        return Err(Refusal::Rows);
    }
    Ok(MostCounts {
        stored: m * (m + 1) / 2,
        products: (m * m * m - m) / 6,
    })
}
