// A step of the path-following algorithm in a block of lanes, over its working memory.
#![tactic(auto)]

ghost use Rattle.std.specs.Prelude.{◌≡◌, cond, false, List, ℕ, ◌<◌, ◌≤◌, get_or, Float};
ghost use Rattle.lanes.specs.Lists.{at};
ghost use Rattle.lanes.specs.Lanes.{lanes, Width, room};
ghost use Rattle.lanes.specs.Arithmetic.{◌⊘◌, null, one, smaller};
ghost use Rattle.machine.specs.Machine.{Settings};
ghost use Rattle.machine.specs.declared.Status.TheVariants.{Spoilt};
ghost use Rattle.machine.specs.Outcome.{is_done};
ghost use Rattle.memory.specs.Planned.{Begins};
ghost use Rattle.memory.specs.Tasks.{task_problem, task_data};
ghost use Rattle.layout.specs.Layout.{l_in, top_in};
ghost use Rattle.step.specs.Steps.{FedTask, RightSide, ChangesFor, Directed, Advanced, Fresh, TaskStepTaken};

use changes::{column_changes, slack_changes};
use eliminate::factor_solve;
use kernels::{vector_set, vector_update};
use lanes::{Controls, LaneState, div4, larger4, one4, smaller4, splat};
use layout::Plan;
use machine::Status;
use memory::Task;
use right_hand_side::{rhs_f, rhs_u};
use std::array;

// The reduced costs and mu/x, in the regions of dx and dz; of them u, and of u f, the right-hand side.
fn normal_eqn_rhs(task: &Task<'_>, work: &mut [f64], width: usize, mu: [f64; 4])
    requires { FedTask width task.now × (l_in task.now.lists.plan ≤ room width work.old) }
    ensures { (H : Settings) (tol : List Float) → RightSide width (task_problem task.now) H (task_data task.now tol) mu work.old work.new }
{
    let mem = task.lists.plan.regions();
    rhs_u(&task.columns(), task.c, task.block, work, width, mem, mu);
    rhs_f(&task.rows, task.b, task.block, work, width, mem, mu);
}

// dx, dz and dw, of the dy, the reduced costs and mu/x that are there, and theta.
fn compute_dx_dz_dw(task: &Task<'_>, work: &mut [f64], width: usize, mu: [f64; 4]) -> [f64; 4]
    requires { Begins task.now.rows.vals.now task.now.lists.plan task.now.lists.index.now × (l_in task.now.lists.plan ≤ room width work.old) × Width width }
    ensures { ChangesFor width task.now.lists.plan task.now.rows.vals.now task.now.lists.index.now mu work.old work.new result }
{
    let mem = task.lists.plan.regions();
    let p = column_changes(&task.columns(), work, width, mem, mu);
    let q = slack_changes(work, width, mem, mu);
    larger4(p, q)
}

// dx, dz, dy and dw, of the numbers as they are, and theta.
fn directions(task: &Task<'_>, work: &mut [f64], width: usize, mu: [f64; 4]) -> [f64; 4]
    requires { FedTask width task.now × (top_in task.now.lists.plan ≤ room width work.old) }
    ensures { (H : Settings) (tol : List Float) → Directed width (task_problem task.now) H (task_data task.now tol) (top_in task.now.lists.plan) mu work.old work.new result }
{
    normal_eqn_rhs(task, work, width, mu);
    factor_solve(work, width, task.rows.vals, &task.lists);
    compute_dx_dz_dw(task, work, width, mu)
}

// h: the smaller of the damping over theta and 1.
fn step_length4(theta: [f64; 4], damping: f64) -> [f64; 4]
    ensures { result ≡ lanes (λ l. smaller (damping ⊘ at theta l) one) }
{
    let q = div4(splat(damping), theta);
    smaller4(q, one4())
}

// The `bool` chooses between two numbers; an Option would have none of them.
#[tactic(auto, using(lanes::proofs::Consts::null_bits))]
fn pick1(done: bool, p: f64) -> f64
    ensures { result ≡ cond done null p }
{
    if done { 0.0 } else { p }
}

// The step lengths: 0 in a done lane.
fn pick4(done: [bool; 4], p: [f64; 4]) -> [f64; 4]
    ensures { result ≡ lanes (λ l. cond (get_or done l false) null (at p l)) }
{
    array::from_fn(|l| pick1(done[l], p[l]))
}

// Move the numbers by what was worked out; a done lane's step length is 0.
fn advance(
    work: &mut [f64],
    width: usize,
    plan: Plan,
    theta: [f64; 4],
    done: [bool; 4],
    damping: f64,
)
    requires { (plan.s ≤ plan.m) × (l_in plan ≤ room width work.old) × Width width }
    ensures { Advanced width plan.m plan.n plan.s damping theta done work.old work.new }
{
    let mem = plan.regions();
    let g = step_length4(theta, damping);
    let h = pick4(done, g);
    vector_update(work, width, mem.x, mem.dx, mem.n, h);
    vector_update(work, width, mem.z, mem.dz, mem.n, h);
    vector_update(work, width, mem.y, mem.dy, mem.m, h);
    vector_update(work, width, mem.w, mem.dw, mem.s, h);
}

// Every number as it is at the start, 1000.0; the rest stays.
pub fn normal_eqn_init(work: &mut [f64], width: usize, plan: Plan)
    requires { (l_in plan ≤ room width work.old) × Width width }
    ensures { Fresh width plan.m plan.n plan.s work.old work.new }
{
    let mem = plan.regions();
    let start = LaneState::new();
    vector_set(work, width, mem.x, mem.n, splat(start.x));
    vector_set(work, width, mem.z, mem.n, splat(start.z));
    vector_set(work, width, mem.y, mem.m, splat(start.y));
    vector_set(work, width, mem.w, mem.s, splat(start.w));
}

fn lanes_done(statuses: [Status; 4]) -> [bool; 4]
    ensures { (l : ℕ) → l < 4 → get_or result l false ≡ is_done (get_or statuses l Spoilt) }
{
    statuses.map(|t| t.is_done())
}

// The step that the statuses ask for: a done lane works its step out too, and its step length is 0. What dx, dz, tmp, dy, rhs, dw and the factor hold after is open: the next step writes them before it reads them.
pub fn step_lanes(
    task: &Task<'_>,
    work: &mut [f64],
    width: usize,
    statuses: [Status; 4],
    mu: [f64; 4],
    controls: Controls,
)
    requires { FedTask width task.now × (top_in task.now.lists.plan ≤ room width work.old) }
    ensures { TaskStepTaken task.now width statuses mu controls work.old work.new }
{
    let done = lanes_done(statuses);
    let theta = directions(task, work, width, mu);
    advance(work, width, task.lists.plan, theta, done, controls.damping);
}
