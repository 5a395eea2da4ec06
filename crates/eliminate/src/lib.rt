// The factor of the normal matrix and the two substitutions, in the lanes of a block, by the plan's lists.
#![tactic(auto)]

ghost use Rattle.std.specs.Prelude.{List, ℕ, ◌<◌, ◌≤◌};
ghost use Rattle.lanes.specs.Lanes.{On, Width, room};
ghost use Rattle.lanes.specs.Region.{Fills};
ghost use Rattle.memory.specs.Planned.{Planned, Begins};
ghost use Rattle.layout.specs.Layout.{top_in, dy_at};
ghost use Rattle.eliminate.specs.Elimination.{Forwarded, Solves, BackIn, back_entry, back_all};
ghost use Rattle.factor.specs.Row.{solved_in};

use entries::{get, put};
use factor::normal_matrix_cholesky_row;
use lanes::div4;
use layout::Lists;
use sparse::less_back;

// Row by row: the factor's row, and with it the forward substitution's entry, which needs no later row. The two chains of divisions overlap.
fn factor_forward(work: &mut [f64], width: usize, values: &[f64], lists: &Lists<'_>)
    requires { Begins values.now lists.now.plan lists.now.index.now × (top_in lists.now.plan ≤ room width work.old) × Width width }
    ensures { (off cols : List ℕ) → Planned off cols values.now lists.now.plan lists.now.index.now → Forwarded width off cols values.now lists.now.plan lists.now.index.now work.old work.new }
{
    let mem = lists.plan.regions();
    for i in 0..mem.m {
        let v = normal_matrix_cholesky_row(work, width, values, lists, i);
        put(work, mem.dy + i, width, v);
    }
}

// Entry i of the backward substitution, where the entries behind it stand.
fn back_entry(work: &[f64], width: usize, lists: &Lists<'_>, i: usize) -> [f64; 4]
    requires { BackIn width lists.now.plan lists.now.index.now work.now × (i < lists.now.plan.m) }
    ensures { On width result (back_entry width lists.now.plan lists.now.index.now work.now i) }
{
    let mem = lists.plan.regions();
    let ends = lists.ltindptr;
    let a = ends[i] as usize + 1;
    let e = ends[i + 1] as usize;
    let b = get(work, mem.dy + i, width);
    let rows = &lists.ltindices[a..e];
    let places = &lists.ltmap[a..e];
    let v = less_back(rows, places, work, width, mem.dy, mem.l, b);
    let g = lists.lindptr[i + 1] as usize - 1;
    let p = get(work, mem.l + g, width);
    div4(v, p)
}

// The backward substitution, in place.
fn backward(work: &mut [f64], width: usize, lists: &Lists<'_>)
    requires { BackIn width lists.now.plan lists.now.index.now work.old }
    ensures { Fills width (dy_at lists.now.plan.n lists.now.plan.m) lists.now.plan.m (λ l. back_all width lists.now.plan lists.now.index.now work.old l (solved_in width lists.now.plan work.old lists.now.plan.m l)) work.old work.new }
{
    let mem = lists.plan.regions();
    for i in (0..mem.m).rev() {
        let u = back_entry(work, width, lists, i);
        put(work, mem.dy + i, width, u);
    }
}

// The factor, and the solution for the right-hand side, by the plan in the index memory.
pub fn factor_solve(work: &mut [f64], width: usize, values: &[f64], lists: &Lists<'_>)
    requires { Begins values.now lists.now.plan lists.now.index.now × (top_in lists.now.plan ≤ room width work.old) × Width width }
    ensures { (off cols : List ℕ) → Planned off cols values.now lists.now.plan lists.now.index.now → Solves width off cols values.now lists.now.plan lists.now.index.now work.old work.new }
{
    factor_forward(work, width, values, lists);
    backward(work, width, lists);
}
