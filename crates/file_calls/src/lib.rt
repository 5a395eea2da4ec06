// A plan as a file: written to lent bytes, and read back.
#![tactic(auto)]

ghost use Rattle.std.specs.Prelude.{◌≡◌, length};
ghost use Rattle.csr.specs.Verdict.{passed};
ghost use Rattle.ipm_common.specs.Plan.{told_plan, Answered};
ghost use Rattle.plan_file.specs.Matrix.{matrix_lists};
ghost use Rattle.plan_file.specs.Tables.{wide};
ghost use Rattle.plan_file.specs.Verdicts.{file_verdict};
ghost use Rattle.file_calls.specs.Calls.{told_write, rooms_verdict, write_verdict, words_after, bytes_after, read_verdict};

use csr::{Matrix, Refusal, Rows};
use file_questions::Asked;

// Questions 6 and 8 of a matrix, and the plan with its file. All sizes are known before a word is written.
fn write_accepted(matrix: &Matrix<'_>, index: &mut [u32], file: &mut [u8]) -> Result<usize, Refusal>
    ensures answer { told_write result ≡ rooms_verdict matrix.now.m matrix.now.n matrix.now.rows.offsets.now matrix.now.rows.columns.now (length index.old) (length file.old) }
    ensures words { index.new ≡ words_after matrix.now.m matrix.now.n matrix.now.rows.offsets.now matrix.now.rows.columns.now (told_write result) index.old }
    ensures bytes { file.new ≡ bytes_after matrix.now.m matrix.now.n matrix.now.rows.offsets.now matrix.now.rows.columns.now (told_write result) file.old }
{
    let plan = counts::plan_sizes(matrix, 0);
    let words = plan.words();
    if index.len() < words {
        return Err(Refusal::IndexMemory);
    }
    let bytes = file_write::file_bytes(words);
    if file.len() < bytes {
        return Err(Refusal::Lengths);
    }
    // The plan has room: question 6 got a yes above.
    ipm_common::plan_accepted(matrix, index)?;
    file_write::put_file(file, index, plan);
    Ok(bytes)
}

// Questions 1 to 6 and 8, and after these the plan and its file. Any numbers, any lists.
pub fn write_plan(
    m: usize,
    n: usize,
    rows: &Rows<'_>,
    index: &mut [u32],
    file: &mut [u8],
) -> Result<usize, Refusal>
    ensures answer { told_write result ≡ write_verdict m n rows.now.offsets.now rows.now.columns.now (length index.old) (length file.old) }
    ensures words { index.new ≡ words_after m n rows.now.offsets.now rows.now.columns.now (write_verdict m n rows.now.offsets.now rows.now.columns.now (length index.old) (length file.old)) index.old }
    ensures bytes { file.new ≡ bytes_after m n rows.now.offsets.now rows.now.columns.now (write_verdict m n rows.now.offsets.now rows.now.columns.now (length index.old) (length file.old)) file.old }
{
    let matrix = csr::ask(m, n, rows, rows.columns.len())?;
    write_accepted(&matrix, index, file)
}

// Question 6 of what is known of a matrix and a file that is its plan's, and the file's lists in the index memory.
fn read_accepted(asked: &Asked<'_>, index: &mut [u32]) -> Result<usize, Refusal>
    requires { file_verdict wide (matrix_lists asked.now.matrix.rows.offsets.now asked.now.matrix.rows.columns.now asked.now.matrix.m asked.now.matrix.n) asked.now.file.bytes.now ≡ passed }
    ensures { Answered asked.now.matrix.m asked.now.matrix.n asked.now.matrix.rows.offsets.now asked.now.matrix.rows.columns.now index.old index.new (told_plan result) }
{
    let count = asked.plan.words();
    if index.len() < count {
        return Err(Refusal::IndexMemory);
    }
    file_copy::copy_plan(asked.file, index);
    Ok(count)
}

// Questions 1 to 5, 14 to 16 and 6, and after these the plan. Any numbers, any lists, any bytes.
pub fn read_plan(
    m: usize,
    n: usize,
    rows: &Rows<'_>,
    file: &[u8],
    index: &mut [u32],
) -> Result<usize, Refusal>
    ensures answer { told_plan result ≡ read_verdict m n rows.now.offsets.now rows.now.columns.now file.now (length index.old) }
    ensures words { index.new ≡ words_after m n rows.now.offsets.now rows.now.columns.now (read_verdict m n rows.now.offsets.now rows.now.columns.now file.now (length index.old)) index.old }
{
    let asked = file_questions::ask(m, n, rows, rows.columns.len(), file)?;
    // The file's lists are the matrix's.
    read_accepted(&asked, index)
}
