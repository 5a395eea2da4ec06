// Questions 1 to 5 and 14 to 16 of a matrix and a file, each asked of the whole file before the next. No memory is lent for them.
#![tactic(auto)]

ghost use Rattle.std.specs.Prelude.{◌≡◌, IfOk};
ghost use Rattle.csr.specs.Questions.{first_no};
ghost use Rattle.csr.specs.Verdict.{told_asked, and_then};
ghost use Rattle.plan_file.specs.Matrix.{matrix_lists};
ghost use Rattle.plan_file.specs.Tables.{wide};
ghost use Rattle.plan_file.specs.Verdicts.{file_verdict};
ghost use Rattle.file_questions.specs.Sized.{counted_plan};

mod sixteen;

use csr::{Matrix, Refusal, Rows};
use file_walk::WholeFile;
use layout::Plan;

// What is known after the yeses: the matrix, the sizes of its plan, with no slack rows, and the file.
#[derive(Clone, Copy)]
pub struct Asked<'a> {
    pub matrix: Matrix<'a>,
    pub plan: Plan,
    pub file: WholeFile<'a>,
    ghost counted: { plan ≡ counted_plan matrix },
}

// 14 to 16, of a matrix and a file.
fn ask_three<'a>(matrix: &Matrix<'a>, file: &'a [u8]) -> Result<Asked<'a>, Refusal>
    ensures verdict { told_asked result ≡ file_verdict wide (matrix_lists matrix.now.rows.offsets.now matrix.now.rows.columns.now matrix.now.m matrix.now.n) file.now }
    ensures given { IfOk result (λ r. (r.matrix ≡ matrix.now) × (r.file.bytes.now ≡ file.now)) }
{
    let whole = file_walk::whole(file).ok_or(Refusal::CutShort)?;
    if !file_walk::is_ordered(whole) {
        return Err(Refusal::OutOfOrder);
    }
    let plan = counts::plan_sizes(matrix, 0);
    if !sixteen::is_plan(whole, matrix, plan) {
        return Err(Refusal::OtherLists);
    }
    Ok(Asked {
        matrix: *matrix,
        plan,
        file: whole,
    })
}

// Questions 1 to 5, of a matrix with so many values, and 14 to 16. Any numbers, any lists.
pub fn ask<'a>(
    m: usize,
    n: usize,
    rows: &Rows<'a>,
    values: usize,
    file: &'a [u8],
) -> Result<Asked<'a>, Refusal>
    ensures verdict { told_asked result ≡ and_then (first_no m n rows.now.offsets.now rows.now.columns.now values) (file_verdict wide (matrix_lists rows.now.offsets.now rows.now.columns.now m n) file.now) }
    ensures given { IfOk result (λ r. (r.matrix.m ≡ m) × (r.matrix.n ≡ n) × (r.matrix.rows ≡ rows.now) × (r.file.bytes.now ≡ file.now)) }
{
    let matrix = csr::ask(m, n, rows, values)?;
    ask_three(&matrix, file)
}
