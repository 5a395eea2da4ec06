// The tests of a block of lanes, one after the other.
#![tactic(auto)]

ghost use Rattle.std.specs.Prelude.{◌≡◌, ◌≤◌};
ghost use Rattle.lanes.specs.Lists.{at};
ghost use Rattle.lanes.specs.Lanes.{lanes, room};
ghost use Rattle.lanes.specs.Arithmetic.{◌⊕◌, one};
ghost use Rattle.layout.specs.Layout.{top_in};
ghost use Rattle.machine.specs.Work.{Ran};
ghost use Rattle.memory.specs.Calls.{memory_in};
ghost use Rattle.memory.specs.Tasks.{TaskLent};
ghost use Rattle.step.specs.Steps.{Untouched};
ghost use Rattle.run.specs.Tests.{Bears, Tested, AtEveryTest, MeasuredIn, ForTask, turn_after};

use lane_test::Measures;
use lanes::{Controls, add4, one4};
use machine::{Outcome, Status};
use memory::Task;
use step::{normal_eqn_init, step_lanes};

fn one_more(size: [f64; 4]) -> [f64; 4]
    ensures { result ≡ lanes (λ l. one ⊕ at size l) }
{
    add4(one4(), size)
}

// Test k: each lane has the numbers that its machine's test k reads, and what is said of the lane is what that test yields. R is over one more than the norm of x, Q over one more than that of y.
fn test_at(
    task: &Task<'_>,
    work: &[f64],
    width: usize,
    sums: Measures,
    controls: Controls,
    k: usize,
) -> [Status; 4]
    requires { TaskLent width task.now × (top_in task.now.lists.plan ≤ room width work.now) × MeasuredIn controls task.now.lists.plan width work.now sums × ForTask (λ C. Bears C k (memory_in task.now.lists.plan width work.now)) controls task.now width }
    ensures { ForTask (λ C. Tested C k (memory_in task.now.lists.plan width work.now) result) controls task.now width }
{
    let rdiv = one_more(sums.nx);
    let qdiv = one_more(sums.ny);
    lane_test::test(task, work, width, sums, rdiv, qdiv)
}

// How the tests end, where test k ends them; a step follows it otherwise. A no at 11 names the lane by its place in the block.
#[tactic(auto, using(lanes::proofs::Lists::first_le), unfolding(crate::specs::Tests::turn_after))]
fn turn_after(statuses: [Status; 4], width: usize, limit: usize, k: usize) -> Option<Outcome>
    requires { width ≤ 4 }
    ensures { result ≡ turn_after width statuses limit k }
{
    if let Some(spoilt) = machine::lowest_spoilt(statuses, width) {
        return Some(Outcome::NoAt11(k, spoilt));
    }
    if machine::lowest_undone(statuses, width).is_none() {
        return Some(Outcome::Accepted(k));
    }
    (k == limit).then_some(Outcome::NoAt12(k))
}

// The tests up to the limit, with a step between one and the next. At every test made each lane has its machine's numbers: under the limit j, for each j up to the number of tests made under any limit, they are in the memory at the end. What dx, dz, tmp, dy, rhs, dw and the factor hold there is open: a step writes them before it reads them.
pub fn run(task: &Task<'_>, work: &mut [f64], width: usize, controls: Controls) -> Outcome
    requires { TaskLent width task.now × (top_in task.now.lists.plan ≤ room width work.old) × (1 ≤ controls.limit) }
    ensures { Untouched width (top_in task.now.lists.plan) work.old work.new × ForTask (λ C. Ran C controls.limit (memory_in task.now.lists.plan width work.new) result × AtEveryTest C controls.limit (memory_in task.now.lists.plan width work.new)) controls task.now width }
{
    let plan = task.lists.plan;
    normal_eqn_init(work, width, plan);
    let mut k: usize = 0;
    // Not a `for` up to the limit: its end would never be reached.
    loop {
        k += 1;
        let sums = lane_test::measure(work, width, plan, controls.centring);
        let statuses = test_at(task, work, width, sums, controls, k);
        let mu = sums.mu;
        if let Some(outcome) = turn_after(statuses, width, controls.limit, k) {
            return outcome;
        }
        step_lanes(task, work, width, statuses, mu, controls);
    }
}
