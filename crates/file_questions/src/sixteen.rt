// Question 16, asked of a whole file. Nothing that is lent is written.
ghost use Rattle.std.specs.Prelude.{◌≡◌};
ghost use Rattle.transpose.specs.Bins.{Room};
ghost use Rattle.pattern.specs.Ready.{Ready};
ghost use Rattle.ipm_common.specs.Plan.{Enough};
ghost use Rattle.plan_file.specs.Matrix.{matrix_lists};
ghost use Rattle.plan_file.specs.Tables.{wide};
ghost use Rattle.plan_file.specs.Verdicts.{is_matrixs, matrixs_file};
ghost use Rattle.file_questions.specs.Sized.{Sized, counted_plan};
ghost use Rattle.file_questions.specs.Takes.{Takes};

use csr::Matrix;
use file_lists::Expected;
use file_walk::WholeFile;
use ipm_common::{FEW_BINS, FEW_PAIRS, FEW_STARTS, MAX_BINS, MAX_PAIRS, MAX_STARTS};
use layout::Plan;
use pair_lists::{FactorRows, Source};
use pattern::WORDS;
use plan_file::Meaning;

// What is asked of one record. What the memories hold after is open, as in `file_lists`.
fn is_record(
    expected: &Expected<'_>,
    meaning: Meaning,
    body: &[u8],
    next: &mut [u32],
    again: &mut [u32],
    made: &mut [u32],
) -> bool
    requires { Takes meaning × Room expected.now.plan.m expected.now.plan.n next.old × Room expected.now.plan.m expected.now.plan.n again.old × Room expected.now.plan.m expected.now.plan.n made.old }
    ensures { result ≡ is_matrixs (matrix_lists expected.now.source.rows.offsets.now expected.now.source.rows.columns.now expected.now.plan.m expected.now.plan.n) meaning body.now }
{
    // The arms do different things: there is no one step to hand over.
    match meaning {
        Meaning::Listed(k, _) => expected.is_list(k, body, next, again, made),
        Meaning::Note | Meaning::Neither => true,
    }
}

// And of the whole file.
fn is_file(
    expected: &Expected<'_>,
    file: WholeFile<'_>,
    next: &mut [u32],
    again: &mut [u32],
    made: &mut [u32],
) -> bool
    requires { Room expected.now.plan.m expected.now.plan.n next.old × Room expected.now.plan.m expected.now.plan.n again.old × Room expected.now.plan.m expected.now.plan.n made.old }
    ensures { result ≡ matrixs_file wide (matrix_lists expected.now.source.rows.offsets.now expected.now.source.rows.columns.now expected.now.plan.m expected.now.plan.n) file.entry.bytes.now }
{
    let bytes = file.bytes;
    let mut at = 0;
    // The lengths of the records stand in the file: the walk has no index to count.
    while at < bytes.len() {
        let r = file_walk::record_at(bytes, at);
        if !is_record(expected, r.meaning, r.body, next, again, made) {
            return false;
        }
        at = r.end;
    }
    true
}

// By the factor's pattern, in memories of such lengths.
fn is_plan_in<const STARTS: usize, const PAIRS: usize, const BINS: usize>(
    file: WholeFile<'_>,
    matrix: &Matrix<'_>,
    plan: Plan,
    p: &[u64; WORDS],
) -> bool
    requires { Sized matrix.now.rows.offsets.now matrix.now.rows.columns.now plan × (matrix.now.m ≡ plan.m) × (matrix.now.n ≡ plan.n) × Ready matrix.now.rows.offsets.now matrix.now.rows.columns.now matrix.now.m p.now × Enough matrix.now.m matrix.now.n STARTS PAIRS BINS }
    ensures { result ≡ matrixs_file wide (matrix_lists matrix.now.rows.offsets.now matrix.now.rows.columns.now matrix.now.m matrix.now.n) file.entry.bytes.now }
{
    let mut lindptr = [0u32; STARTS];
    let mut lindices = [0u8; PAIRS];
    let mut made = [0u32; BINS];
    let mut next = [0u32; BINS];
    let mut again = [0u32; BINS];
    pair_lists::list_rows(p, matrix.m, &mut lindptr, &mut lindices);
    let source = Source {
        m: matrix.m,
        n: matrix.n,
        rows: matrix.rows,
        factor: FactorRows {
            p,
            lindptr: &lindptr,
            lindices: &lindices,
        },
    };
    let expected = Expected { source, plan };
    is_file(&expected, file, &mut next, &mut again, &mut made)
}

// Question 16 of a matrix, the sizes of its plan and a file.
// Not part of its caller, so that these memories do not lie on the stack beside those that the sizes are counted in.
#[inline(never)]
pub fn is_plan(file: WholeFile<'_>, matrix: &Matrix<'_>, plan: Plan) -> bool
    requires { plan ≡ counted_plan matrix.now }
    ensures { result ≡ matrixs_file wide (matrix_lists matrix.now.rows.offsets.now matrix.now.rows.columns.now matrix.now.m matrix.now.n) file.entry.bytes.now }
{
    let mut p = [0u64; WORDS];
    pattern::pattern(&matrix.rows, matrix.m, &mut p);
    if matrix.m <= Plan::FEW_ROWS && matrix.n <= Plan::FEW_COLUMNS {
        is_plan_in::<FEW_STARTS, FEW_PAIRS, FEW_BINS>(file, matrix, plan, &p)
    } else {
        is_plan_in::<MAX_STARTS, MAX_PAIRS, MAX_BINS>(file, matrix, plan, &p)
    }
}
