// The test of a block of lanes, on their numbers in the working memory.
#![tactic(auto)]

ghost use Rattle.std.specs.Prelude.{◌≡◌, ℕ, ◌+◌, ◌<◌, ◌≤◌, ◌*◌, length, get_or};
ghost use Rattle.lanes.specs.Lists.{at};
ghost use Rattle.lanes.specs.Arithmetic.{◌⊕◌, ◌⊗◌, ◌⊘◌, √, Σ, norm, one, whole};
ghost use Rattle.lanes.specs.Lanes.{lanes, On, Width, room};
ghost use Rattle.lanes.specs.Region.{reg};
ghost use Rattle.sparse.specs.Parts.{Rows, Cols};
ghost use Rattle.machine.specs.Machine.{Settings};
ghost use Rattle.machine.specs.declared.Status.TheVariants.{Spoilt};
ghost use Rattle.memory.specs.Tasks.{TaskLent, task_problem, task_data};
ghost use Rattle.layout.specs.Layout.{l_in};
ghost use Rattle.lane_test.specs.Measures.{judged, Measured, Judges, primal_tol, dual_tol, gap_tol, judged_lane};
ghost use Rattle.kernels.specs.Kernels.{Laid, Within, w_in, slack_y};
ghost use Rattle.residuals.specs.Residuals.{primal_sum, dual_sum};
ghost use Rattle.csr.specs.Questions.{max_rows, max_columns};

use kernels::{dot_product, squares_and_products};
use lanes::{add4, div4, mul4, one4, root4, splat};
use layout::{Block, Plan, Regions};
use machine::Status;
use memory::Task;
use residuals::{dual_squares, primal_squares};

fn vector_norm(work: &[f64], width: usize, o: usize, k: usize) -> [f64; 4]
    requires { (o + k ≤ room width work.now) × Width width }
    ensures { On width result (λ l. norm k (reg width work.now o k l)) }
{
    root4(dot_product(work, width, o, o, k))
}

// The root of a sum of squares, over a divisor.
fn root_over(squares: [f64; 4], by: [f64; 4]) -> [f64; 4]
    ensures { result ≡ lanes (λ l. √ (at squares l) ⊘ at by l) }
{
    let a = root4(squares);
    div4(a, by)
}

// g: Σ z·x, given, + Σ w·y over the slack rows.
fn gamma(work: &[f64], width: usize, mem: Regions, zx: [f64; 4]) -> [f64; 4]
    requires { Laid width mem work.now }
    ensures { On width result (λ l. at zx l ⊕ Σ mem.s (λ i. at (w_in width mem work.now l) i ⊗ at (slack_y width mem work.now l) i)) }
{
    let b = dot_product(work, width, mem.w, mem.y, mem.s);
    add4(zx, b)
}

// G, given g and the norms of x and y.
fn gap_in(g: [f64; 4], nx: [f64; 4], ny: [f64; 4]) -> [f64; 4]
    ensures { result ≡ lanes (λ l. at g l ⊘ (one ⊕ at nx l ⊕ at ny l)) }
{
    let a = add4(one4(), nx);
    div4(g, add4(a, ny))
}

// mu, given g, by a centring.
fn mu_in(g: [f64; 4], n: usize, s: usize, centring: f64) -> [f64; 4]
    requires { (n ≤ max_columns) × (s ≤ max_rows) }
    ensures { result ≡ lanes (λ l. centring ⊗ at g l ⊘ whole (n + s)) }
{
    let k = n + s;
    let d = splat(k as f64);
    let a = mul4(splat(centring), g);
    div4(a, d)
}

// What the test and the step both read, of the lanes: the norms of x and y, g and mu.
#[derive(Clone, Copy)]
pub struct Measures {
    pub nx: [f64; 4],
    pub ny: [f64; 4],
    pub g: [f64; 4],
    pub mu: [f64; 4],
}

pub fn measure(work: &[f64], width: usize, plan: Plan, centring: f64) -> Measures
    requires { (plan.m ≤ max_rows) × (plan.n ≤ max_columns) × (plan.s ≤ plan.m) × (l_in plan ≤ room width work.now) × Width width }
    ensures { Measured width plan.m plan.n plan.s centring work.now result.nx result.ny result.g result.mu }
{
    let mem = plan.regions();
    let sums = squares_and_products(work, width, mem.x, mem.z, mem.n);
    let xx = sums.squares;
    let zx = sums.products;
    let nx = root4(xx);
    let ny = vector_norm(work, width, mem.y, mem.m);
    let g = gamma(work, width, mem, zx);
    let mu = mu_in(g, mem.n, mem.s, centring);
    Measures { nx, ny, g, mu }
}

// A lane's tolerances of R, Q and G.
#[derive(Clone, Copy)]
struct Tolerances {
    primal: f64,
    dual: f64,
    gap: f64,
}

// What one lane's test yields, of R, Q, G, mu and its tolerances.
fn judge(r: f64, q: f64, g: f64, mu: f64, tol: Tolerances) -> Status
    ensures { result ≡ judged r q g mu tol.primal tol.dual tol.gap }
{
    if g.is_nan() {
        return Status::Spoilt;
    }
    if r < tol.primal && q < tol.dual && g < tol.gap {
        return Status::Done;
    }
    Status::Step(mu)
}

// The tolerances of lane l of a block.
fn tolerances_of(tol: &[f64], block: Block, l: usize) -> Tolerances
    requires { (l < 4) × (block.total ≤ 16) × (block.first + l < block.total) × (3 * block.total ≤ length tol.now) }
    ensures { (result.primal ≡ primal_tol block tol.now l) × (result.dual ≡ dual_tol block tol.now l) × (result.gap ≡ gap_tol block tol.now l) }
{
    let total = block.total;
    let p = block.first + l;
    Tolerances {
        primal: tol[p],
        dual: tol[total + p],
        gap: tol[2 * total + p],
    }
}

// Each of the block's lanes, judged by its own numbers and tolerances.
fn judge4(
    r: [f64; 4],
    q: [f64; 4],
    g: [f64; 4],
    mu: [f64; 4],
    tol: &[f64],
    block: Block,
    width: usize,
) -> [Status; 4]
    requires { (block.total ≤ 16) × (block.first + width ≤ block.total) × (3 * block.total ≤ length tol.now) × Width width }
    ensures { (l : ℕ) → l < width → get_or result l Spoilt ≡ judged_lane block r q g mu tol.now l }
{
    let mut statuses = [Status::Spoilt; 4];
    for l in 0..width {
        let given = tolerances_of(tol, block, l);
        statuses[l] = judge(r[l], q[l], g[l], mu[l], given);
    }
    statuses
}

// The test: of each lane, what its numbers yield, given what `measure` says of them and the divisors of R and of Q.
pub fn test(
    task: &Task<'_>,
    work: &[f64],
    width: usize,
    sums: Measures,
    rdiv: [f64; 4],
    qdiv: [f64; 4],
) -> [Status; 4]
    requires { TaskLent width task.now × (l_in task.now.lists.plan ≤ room width work.now) }
    ensures { (H : Settings) → Judges width (task_problem task.now) H (task_data task.now task.now.tolerances.now) work.now sums.nx sums.ny sums.g sums.mu rdiv qdiv result }
{
    let Measures { nx, ny, g, mu } = sums;
    let mem = task.lists.plan.regions();
    let block = task.block;
    let primal = primal_squares(&task.rows, task.b, block, work, width, mem);
    let dual = dual_squares(&task.columns(), task.c, block, work, width, mem);
    let r = root_over(primal, rdiv);
    let q = root_over(dual, qdiv);
    judge4(r, q, gap_in(g, nx, ny), mu, task.tolerances, block, width)
}
