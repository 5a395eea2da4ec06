// x and y of each lane, from the working memory to the outputs that a solve is lent.
#![tactic(auto)]

ghost use Rattle.std.specs.Prelude.{◌≡◌, ◌+◌, ◌*◌, ◌≤◌, length};
ghost use Rattle.base.specs.Numbers.{cut};
ghost use Rattle.machine.specs.Machine.{State};
ghost use Rattle.memory.specs.Calls.{memory_in};
ghost use Rattle.outputs.specs.Outputs.{written, output_of, Lent};

use layout::Plan;
use machine::Outcome;

// One list takes another's numbers.
// A loop: `copy_from_slice` calls memmove, which the archive for C would then need from outside.
fn copy(output: &mut [f64], numbers: &[f64])
    requires { length output.old ≡ length numbers.now }
    ensures { output.new ≡ numbers.now }
{
    for i in 0..output.len() {
        output[i] = numbers[i];
    }
}

// On acceptance the output takes the memory from entry `from` on, as much as it is long.
fn write_output(outcome: Outcome, lanes: usize, output: &mut [f64], work: &[f64], from: usize)
    requires { lanes * from + length output.old ≤ length work.now }
    ensures { output.new ≡ written outcome (cut (lanes * from) (lanes * from + length output.old) work.now) output.old }
{
    if let Outcome::Accepted(_) = outcome {
        let start = lanes * from;
        copy(output, &work[start..start + output.len()]);
    }
}

// On acceptance x goes to the output and y to the prices.
pub fn write_outputs(
    outcome: Outcome,
    plan: Plan,
    lanes: usize,
    output: &mut [f64],
    prices: &mut [f64],
    work: &[f64],
)
    requires { Lent plan lanes (length output.old) (length prices.old) (length work.now) }
    ensures x { output.new ≡ output_of lanes (λ (q : State). q.x) plan.n (memory_in plan lanes work.now) outcome output.old }
    ensures y { prices.new ≡ output_of lanes (λ (q : State). q.y) plan.m (memory_in plan lanes work.now) outcome prices.old }
{
    let at = plan.regions();
    write_output(outcome, lanes, output, work, at.x);
    write_output(outcome, lanes, prices, work, at.y);
}
