// The calls and the square root for callers in C and Rust. An answer is one number; what else a call tells goes through pointers.
#![tactic(auto)]

ghost use Rattle.std.specs.Prelude.{◌≡◌, ◌≤◌, ◌<◌, ◌^◌, length, option_map};
ghost use Rattle.ipm_common.specs.Plan.{told_plan, plan_verdict, plan_index};
ghost use Rattle.root.specs.Root.{root_bits};
ghost use Rattle.lanes.specs.Controls.{controls};
ghost use Rattle.ipm_simd.specs.Solve.{given, with_file, lent};
ghost use Rattle.file_calls.specs.Calls.{write_verdict, words_after, bytes_after, read_verdict};
ghost use Rattle.sizes.specs.Sizes.{sizes_verdict, costliest_verdict};
ghost use Rattle.csr.specs.Verdict.{refusal};
ghost use Rattle.ipm_c.specs.Packed.{in_one, packed, Small, lent_file, SolvedInOne};
ghost use Rattle.ipm_c.specs.Results.{results, results_left, costs_of, costs_left};

use csr::{Numbered, Refusal, Rows};
use ipm_simd::Problem;
use lanes::Controls;

// The question of a yes.
const YES: u32 = 0;

// length · 2^48 + question · 2^40 + place · 2^8 + lane.
// Numbers: so the C interface has an answer.
fn pack(length: usize, question: u32, place: usize, lane: u32) -> u64
    requires { (length < 2 ^ 16) × (question ≤ 16) × (place < 2 ^ 32) × (lane < 2 ^ 8) }
    ensures { result ≡ in_one length question place lane }
{
    let front = (length as u64) * 0x1_0000_0000_0000 + (question as u64) * 0x100_0000_0000;
    front + (place as u64) * 0x100 + lane as u64
}

// A no in one number.
fn pack_refusal(why: Refusal) -> u64
    requires { Small (refusal why) }
    ensures { result ≡ packed (refusal why) }
{
    let no = Numbered::from(why);
    pack(0, no.question, no.place, no.lane)
}

// The answer in one number, where a call tells one.
fn pack_told(answer: Result<usize, Refusal>) -> u64
    requires { Small (told_plan answer) }
    ensures { result ≡ packed (told_plan answer) }
{
    match answer {
        Ok(told) => pack(0, YES, told, 0),
        Err(why) => pack_refusal(why),
    }
}

// The file that a caller lends, by its flag: 0 is no, anything else yes.
// A flag: so the C interface says whether there is a file.
fn lent_file(flag: usize, file: &[u8]) -> Option<&[u8]>
    ensures { option_map (λ f. f.now) result ≡ lent_file flag file.now }
{
    (flag > 0).then_some(file)
}

// Questions 1 to 6, and after six yeses the plan.
#[unsafe(no_mangle)]
pub extern "C" fn ipm_plan(
    m: usize,
    n: usize,
    offsets: &[u32],
    columns: &[u32],
    index: &mut [u32],
) -> u64
    ensures answer { result ≡ packed (plan_verdict m n offsets.now columns.now (length index.old)) }
    ensures words { index.new ≡ plan_index m n offsets.now columns.now index.old }
{
    let rows = Rows { offsets, columns };
    pack_told(ipm_common::plan(m, n, &rows, index))
}

// Questions 1 to 6 and 8, and after these the plan and its file.
#[unsafe(no_mangle)]
pub extern "C" fn ipm_write_plan(
    m: usize,
    n: usize,
    offsets: &[u32],
    columns: &[u32],
    index: &mut [u32],
    file: &mut [u8],
) -> u64
    ensures answer { result ≡ packed (write_verdict m n offsets.now columns.now (length index.old) (length file.old)) }
    ensures words { index.new ≡ words_after m n offsets.now columns.now (write_verdict m n offsets.now columns.now (length index.old) (length file.old)) index.old }
    ensures bytes { file.new ≡ bytes_after m n offsets.now columns.now (write_verdict m n offsets.now columns.now (length index.old) (length file.old)) file.old }
{
    let rows = Rows { offsets, columns };
    pack_told(file_calls::write_plan(m, n, &rows, index, file))
}

// Questions 1 to 5, 14 to 16 and 6, and after these the plan.
#[unsafe(no_mangle)]
pub extern "C" fn ipm_read_plan(
    m: usize,
    n: usize,
    offsets: &[u32],
    columns: &[u32],
    file: &[u8],
    index: &mut [u32],
) -> u64
    ensures answer { result ≡ packed (read_verdict m n offsets.now columns.now file.now (length index.old)) }
    ensures words { index.new ≡ words_after m n offsets.now columns.now (read_verdict m n offsets.now columns.now file.now (length index.old)) index.old }
{
    let rows = Rows { offsets, columns };
    pack_told(file_calls::read_plan(m, n, &rows, file, index))
}

// Questions 1 to 5 and 7, and after a yes E, S, D, W and F.
// By pointers and a parameter for each: the C interface.
#[unsafe(no_mangle)]
pub extern "C" fn ipm_sizes(
    m: usize,
    n: usize,
    s: usize,
    offsets: &[u32],
    columns: &[u32],
    stored: &mut u64,
    shared: &mut u64,
    products: &mut u64,
    words: &mut u64,
    numbers: &mut u64,
) -> u64
    ensures answer { result ≡ packed (sizes_verdict m n s offsets.now columns.now) }
    ensures results { results stored.new shared.new products.new words.new numbers.new ≡ results_left (sizes_verdict m n s offsets.now columns.now) (results stored.old shared.old products.old words.old numbers.old) }
{
    match sizes::sizes(m, n, s, &Rows { offsets, columns }) {
        Ok(z) => {
            *stored = z.stored as u64;
            *shared = z.shared as u64;
            *products = z.products as u64;
            *words = z.words as u64;
            *numbers = z.numbers as u64;
            pack(0, YES, z.words, 0)
        }
        Err(why) => pack_refusal(why),
    }
}

// Question 1, and after a yes E and D of the costliest pattern of m rows.
#[unsafe(no_mangle)]
pub extern "C" fn ipm_costliest(m: usize, stored: &mut u64, products: &mut u64) -> u64
    ensures answer { result ≡ packed (costliest_verdict m) }
    ensures results { costs_of stored.new products.new ≡ costs_left (costliest_verdict m) (costs_of stored.old products.old) }
{
    match sizes::costliest(m) {
        Ok(z) => {
            *stored = z.stored as u64;
            *products = z.products as u64;
            pack(0, YES, 0, 0)
        }
        Err(why) => pack_refusal(why),
    }
}

// Questions 1 to 13 and, where `filed` is not 0, 14 to 16 of the file; after a yes x and y.
// By a parameter for each list and number: the C interface.
#[unsafe(no_mangle)]
pub extern "C" fn ipm_solve(
    m: usize,
    n: usize,
    s: usize,
    offsets: &[u32],
    columns: &[u32],
    values: &[f64],
    b: &[f64],
    c: &[f64],
    tolerances: &[f64],
    limit: usize,
    centring: f64,
    damping: f64,
    filed: usize,
    file: &[u8],
    output: &mut [f64],
    prices: &mut [f64],
    index: &mut [u32],
    work: &mut [f64],
) -> u64
    ensures { SolvedInOne (with_file (lent_file filed file.now) (given m n s offsets.now columns.now values.now b.now c.now tolerances.now (controls limit centring damping))) (lent output.old prices.old index.old work.old) (lent output.new prices.new index.new work.new) result }
{
    let problem = Problem {
        m,
        n,
        s,
        rows: Rows { offsets, columns },
        values,
        b,
        c,
        tolerances,
    };
    let controls = Controls {
        limit,
        centring,
        damping,
    };
    let file = lent_file(filed, file);
    match ipm_simd::solve(&problem, controls, file, output, prices, index, work) {
        Ok(solution) => pack(solution.prices, YES, solution.test, 0),
        Err(why) => pack_refusal(why),
    }
}

// The bits of the square root of the number with these bits.
#[unsafe(no_mangle)]
pub extern "C" fn ipm_root_bits(bits: u64) -> u64
    ensures { result ≡ root_bits bits }
{
    root::root_bits(bits)
}
