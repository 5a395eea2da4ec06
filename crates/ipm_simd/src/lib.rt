// Four linear programs over one matrix, solved lane by lane: the public call.
#![tactic(auto)]

ghost use Rattle.std.specs.Prelude.{◌≡◌, ◌&&◌, ℕ, ◌<◌, ◌≤◌, leb, length, IfOk, option_map};
ghost use Rattle.csr.specs.Csr.{max_stored};
ghost use Rattle.csr.specs.Verdict.{told_asked, and_then};
ghost use Rattle.machine.specs.declared.Outcome.TheVariants.{NoAt11};
ghost use Rattle.machine.specs.Outcome.{largest_limit};
ghost use Rattle.memory.specs.Planned.{Planned};
ghost use Rattle.ipm_simd.specs.Solve.{given_of, with_file, lent, told_solve, outcome_verdict, lengths_right, lengths_verdict, if_filed, Solved};
ghost use Rattle.ipm_simd.specs.Parts.{Asked10, Ends, Continued};
ghost use Rattle.csr.specs.Questions.{max_rows, max_columns, first_no};
ghost use Rattle.plan_file.specs.Matrix.{matrix_lists};
ghost use Rattle.plan_file.specs.Tables.{wide};
ghost use Rattle.plan_file.specs.Verdicts.{file_verdict};

use csr::{Matrix, Refusal, Rows};
use lanes::Controls;
use layout::{Block, LANES, Plan};
use machine::Outcome;
use memory::Task;
use sparse::ByRow;

// The tolerances of the lanes: primal, dual, optimality.
const TOLERANCES: usize = 3 * LANES;

// What solve tells of an accepted solution: the test at which all lanes were done, and how many numbers y has.
#[derive(Clone, Copy, Debug, PartialEq, Eq)]
pub struct Solution {
    pub test: usize,
    pub prices: usize,
}

// How long the lent lists are.
#[derive(Clone, Copy)]
pub struct Lengths {
    pub index: usize,
    pub b: usize,
    pub c: usize,
    pub tolerances: usize,
    pub output: usize,
    pub prices: usize,
    pub work: usize,
}

// Question 8.
fn lengths_right(m: usize, n: usize, lengths: Lengths) -> bool
    requires { (m ≤ max_rows) × (n ≤ max_columns) }
    ensures { result ≡ lengths_right m n lengths }
{
    lengths.b == LANES * m
        && lengths.c == LANES * n
        && lengths.tolerances == TOLERANCES
        && lengths.output == LANES * n
        && lengths.prices == LANES * m
}

// Question 10.
fn limit_right(limit: usize) -> bool
    ensures { result ≡ (leb 1 limit && leb limit largest_limit) }
{
    1 <= limit && limit <= Controls::MAX_TESTS
}

// Questions 6 to 10 and 13, by W, the plan's sizes, the lengths of the lists and what the caller set.
#[tactic(auto, unfolding(crate::specs::Solve::lengths_verdict))]
fn ask_lengths(
    words: usize,
    plan: Plan,
    lengths: Lengths,
    controls: Controls,
) -> Result<(), Refusal>
    requires { (plan.m ≤ max_rows) × (plan.n ≤ max_columns) × (plan.stored ≤ max_stored) }
    ensures { told_asked result ≡ lengths_verdict words plan.stored plan.m plan.n plan.s lengths controls }
{
    let m = plan.m;
    let n = plan.n;
    let s = plan.s;
    if lengths.index < words {
        return Err(Refusal::IndexMemory);
    }
    if m < s {
        return Err(Refusal::SlackRows);
    }
    if !lengths_right(m, n, lengths) {
        return Err(Refusal::Lengths);
    }
    if lengths.work < plan.numbers(LANES) {
        return Err(Refusal::WorkingMemory);
    }
    if !limit_right(controls.limit) {
        return Err(Refusal::Limit);
    }
    if !controls.fractions_proper() {
        return Err(Refusal::Fractions);
    }
    Ok(())
}

// The answer, where y has so many numbers.
fn answer(outcome: Outcome, prices: usize) -> Result<Solution, Refusal>
    requires { (k l : ℕ) → outcome ≡ NoAt11 k l → l < 4 }
    ensures { told_solve result ≡ outcome_verdict prices outcome }
{
    match outcome {
        Outcome::Accepted(test) => Ok(Solution { test, prices }),
        Outcome::NoAt11(test, lane) => Err(Refusal::Spoilt(test, lane as u32)),
        Outcome::NoAt12(limit) => Err(Refusal::NotDone(limit)),
    }
}

// Four linear programs over one matrix: m rows, n columns and s slack rows, the matrix with its values, and b, c and the tolerances of all lanes.
#[derive(Clone, Copy)]
pub struct Problem<'a> {
    pub m: usize,
    pub n: usize,
    pub s: usize,
    pub rows: Rows<'a>,
    pub values: &'a [f64],
    pub b: &'a [f64],
    pub c: &'a [f64],
    pub tolerances: &'a [f64],
}

// The tests, the outputs and the clearing, after the yeses and the plan.
// The buffers are parameters of their own, here and below: tried as a struct of `&mut`, whose fields the check does not know at the end by name, nor that they kept their length.
fn solve_planned(
    plan: Plan,
    problem: &Problem<'_>,
    controls: Controls,
    output: &mut [f64],
    prices: &mut [f64],
    index: &[u32],
    work: &mut [f64],
) -> Result<Solution, Refusal>
    requires { Planned problem.now.rows.offsets.now problem.now.rows.columns.now problem.now.values.now plan index.now × (problem.now.m ≡ plan.m) × (problem.now.n ≡ plan.n) × (problem.now.s ≡ plan.s) × Asked10 (given_of problem.now controls) (lent output.old prices.old index.now work.old) plan.stored plan.shared plan.products }
    ensures { Ends (given_of problem.now controls) plan output.old prices.old work.old (lent output.new prices.new index.now work.new) result }
{
    let room = plan.numbers(LANES);
    let task = Task {
        rows: ByRow {
            off: problem.rows.offsets,
            cols: problem.rows.columns,
            vals: problem.values,
        },
        lists: plan.lists(index),
        b: problem.b,
        c: problem.c,
        tolerances: problem.tolerances,
        block: Block {
            total: LANES,
            first: 0,
        },
    };
    let outcome = run::run(&task, work, LANES, controls);
    outputs::write_outputs(outcome, plan, LANES, output, prices, work);
    base::fill_front(work, room, 0.0);
    answer(outcome, prices.len())
}

// Questions 6 to 10 and 13 of a matrix that has passed 1 to 5, and the solve. The plan is written once all of them got a yes.
fn solve_accepted(
    matrix: &Matrix<'_>,
    problem: &Problem<'_>,
    controls: Controls,
    output: &mut [f64],
    prices: &mut [f64],
    index: &mut [u32],
    work: &mut [f64],
) -> Result<Solution, Refusal>
    requires { (matrix.now.m ≡ problem.now.m) × (matrix.now.n ≡ problem.now.n) × (matrix.now.rows ≡ problem.now.rows) × (length problem.now.values.now ≡ length problem.now.rows.columns.now) }
    ensures { Continued (given_of problem.now controls) (lent output.old prices.old index.old work.old) (lent output.new prices.new index.new work.new) result }
{
    let lengths = Lengths {
        index: index.len(),
        b: problem.b.len(),
        c: problem.c.len(),
        tolerances: problem.tolerances.len(),
        output: output.len(),
        prices: prices.len(),
        work: work.len(),
    };
    let plan = counts::plan_sizes(matrix, problem.s);
    ask_lengths(plan.words(), plan, lengths, controls)?;
    ipm_common::plan_accepted(matrix, index)?;
    solve_planned(plan, problem, controls, output, prices, index, work)
}

// Questions 1 to 5, of a matrix with so many values, and 14 to 16, of a file that is lent.
fn ask_matrix<'a>(problem: &Problem<'a>, file: Option<&'a [u8]>) -> Result<Matrix<'a>, Refusal>
    ensures verdict { told_asked result ≡ and_then (first_no problem.now.m problem.now.n problem.now.rows.offsets.now problem.now.rows.columns.now (length problem.now.values.now)) (if_filed (option_map (λ f. f.now) file.entry) (file_verdict wide (matrix_lists problem.now.rows.offsets.now problem.now.rows.columns.now problem.now.m problem.now.n))) }
    ensures matrix { IfOk result (λ M. (M.m ≡ problem.now.m) × (M.n ≡ problem.now.n) × (M.rows ≡ problem.now.rows)) }
{
    let Problem { m, n, rows, .. } = *problem;
    let values = problem.values.len();
    match file {
        Some(file) => {
            let asked = file_questions::ask(m, n, &rows, values, file)?;
            Ok(asked.matrix)
        }
        None => csr::ask(m, n, &rows, values),
    }
}

// Solve four linear programs. A plan's file is looked at where one is lent. Any numbers, any lists, any floats, any bytes.
pub fn solve(
    problem: &Problem<'_>,
    controls: Controls,
    file: Option<&[u8]>,
    output: &mut [f64],
    prices: &mut [f64],
    index: &mut [u32],
    work: &mut [f64],
) -> Result<Solution, Refusal>
    ensures { Solved (with_file (option_map (λ f. f.now) file.entry) (given_of problem.now controls)) (lent output.old prices.old index.old work.old) (lent output.new prices.new index.new work.new) result }
{
    let matrix = ask_matrix(problem, file)?;
    solve_accepted(&matrix, problem, controls, output, prices, index, work)
}
