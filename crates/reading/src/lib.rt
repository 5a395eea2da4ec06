// From a record to the text of its answer.
#![tactic(auto)]

mod record_memory;

ghost use Rattle.std.specs.Prelude.{◌≡◌, ◌*◌, ◌≤◌, length};
ghost use Rattle.io.specs.Counts.{IsPrefixLen};
ghost use Rattle.base.specs.Cat.{Wrote};
ghost use Rattle.lanes.specs.Controls.{standard_controls};
ghost use Rattle.ipm_simd.specs.Solve.{given_of as problem_given, lent};
ghost use Rattle.record.specs.Record.{m_of, n_of, most_rows, most_columns};
ghost use Rattle.reading.specs.Parts.{Whole, Parts, parts_of};
ghost use Rattle.reading.specs.Answer.{answer_bytes, solve_text, blank, given_of, lent_for, answer_text};

use csr::{Numbered, Rows};
use ipm_simd::Problem;
use lanes::Controls;
use record::{LANES, OFFSETS_AT, RecordSizes, SHORT_BYTES, TOLERANCES};
use record_memory::{
    INDEX_WORDS, MOST_FLOATS, MOST_OUTPUT, MOST_PRICES, MOST_SHORTS, WORK_FLOATS, filled,
};

// Solves with the centring and the damping of the Rust, and puts the text of the answer at the start of out. The text has no y, so its memory is made here.
fn solve_text(
    problem: &Problem<'_>,
    limit: usize,
    output: &mut [f64],
    index: &mut [u32],
    work: &mut [f64],
    out: &mut [u8],
) -> usize
    requires { (problem.now.m ≤ most_rows) × (problem.now.n ≤ most_columns) × (length output.old ≡ 4 * problem.now.n) × (answer_bytes ≤ length out.old) }
    ensures { Wrote out.old out.new 0 (solve_text (problem_given problem.now (standard_controls limit)) (lent output.old (blank (4 * problem.now.m)) index.old work.old)) result }
{
    let mut prices = filled::<f64, MOST_PRICES>(0.0);
    let lent_prices = &mut prices[..LANES * problem.m];
    let controls = Controls {
        limit,
        centring: Controls::CENTRING,
        damping: Controls::DAMPING,
    };
    match ipm_simd::solve(problem, controls, None, output, lent_prices, index, work) {
        Ok(solution) => answer_text::put_accepted(out, solution.test, output, problem.n),
        Err(refusal) => {
            let no = Numbered::from(refusal);
            answer_text::put_refused(out, no)
        }
    }
}

// Cuts the offsets and the columns out of the shorts, and the values, tolerances, b and c out of the floats.
fn solve_parts(
    shorts: &[u32],
    floats: &[f64],
    sizes: RecordSizes,
    output: &mut [f64],
    index: &mut [u32],
    work: &mut [f64],
    out: &mut [u8],
) -> usize
    requires { Parts (length shorts.now) (length floats.now) (length output.old) (length out.old) sizes }
    ensures { Wrote out.old out.new 0 (solve_text (parts_of sizes shorts.now floats.now) (lent output.old (blank (4 * sizes.m)) index.old work.old)) result }
{
    let m = sizes.m;
    let n = sizes.n;
    let t = sizes.t;
    let columns = m + 1;
    let shorts_end = columns + t;
    let b = t + TOLERANCES;
    let c = b + LANES * m;
    let floats_end = c + LANES * n;
    let problem = Problem {
        m,
        n,
        s: sizes.s,
        rows: Rows {
            offsets: &shorts[..columns],
            columns: &shorts[columns..shorts_end],
        },
        values: &floats[..t],
        b: &floats[b..c],
        c: &floats[c..floats_end],
        tolerances: &floats[t..b],
    };
    solve_text(&problem, sizes.limit, output, index, work, out)
}

// The answer to a record that matches.
fn answer(bytes: &[u8], sizes: RecordSizes, out: &mut [u8]) -> usize
    requires { Whole bytes.now sizes × (answer_bytes ≤ length out.old) }
    ensures { Wrote out.old out.new 0 (solve_text (given_of bytes.now) (lent_for (m_of bytes.now) (n_of bytes.now))) result }
{
    let m = sizes.m;
    let n = sizes.n;
    let t = sizes.t;
    let short_count = m + 1 + t;
    let float_count = t + TOLERANCES + LANES * m + LANES * n;
    let output_count = LANES * n;
    let mut shorts = filled::<u32, MOST_SHORTS>(0);
    let mut floats = filled::<f64, MOST_FLOATS>(0.0);
    let mut output = filled::<f64, MOST_OUTPUT>(0.0);
    let mut index = filled::<u32, INDEX_WORDS>(0);
    let mut work = filled::<f64, WORK_FLOATS>(0.0);
    record::read_shorts(bytes, OFFSETS_AT, &mut shorts[..short_count]);
    record::read_floats(
        bytes,
        OFFSETS_AT + SHORT_BYTES * short_count,
        &mut floats[..float_count],
    );
    solve_parts(
        &shorts[..short_count],
        &floats[..float_count],
        sizes,
        &mut output[..output_count],
        &mut index,
        &mut work,
        out,
    )
}

// The answer to any bytes, at the start of out; answers its length.
pub fn respond(bytes: &[u8], out: &mut [u8]) -> usize
    requires { answer_bytes ≤ length out.old }
    ensures wrote { Wrote out.old out.new 0 (answer_text bytes.now) result }
    ensures prefix_len { IsPrefixLen result out.new }
{
    match record::read_header(bytes) {
        Some(sizes) => answer(bytes, sizes, out),
        None => answer_text::put_input(out),
    }
}
