// A row of the factor of the normal matrix, with its entry of the forward substitution, in the lanes of a block, by the plan's lists.
#![tactic(auto)]

ghost use Rattle.std.specs.Prelude.{List, ℕ};
ghost use Rattle.factor.specs.Row.{RowDue, SomeDue, RowDone};

use entries::{get, put};
use factor_entry::{less_products, normal_sum, over_diagonal, root_of, start_of};
use lanes::{div4, splat};
use layout::Lists;
use sparse::less_in;

// Row i of the factor, columns rising, where the rows before it stand; and entry i of the forward substitution of the right-hand side, where the entries before it stand in the solution's region. The diagonal's sum and the entry's go along with the row.
pub fn normal_matrix_cholesky_row(
    work: &mut [f64],
    width: usize,
    values: &[f64],
    lists: &Lists<'_>,
    i: usize,
) -> [f64; 4]
    requires { SomeDue width values.now lists.now.plan lists.now.index.now work.old i }
    ensures { (off cols : List ℕ) → RowDue width off cols values.now lists.now.plan lists.now.index.now work.old i → RowDone width off cols values.now lists.now.plan lists.now.index.now i work.old work.new result }
{
    let mem = lists.plan.regions();
    let ends = lists.lindptr;
    let columns = lists.lindices;
    let g = ends[i + 1] as usize - 1;
    let first = start_of(work, width, mem.y, mem.w, mem.s, i);
    let mut diag = normal_sum(work, width, values, lists, mem, g, first);
    let mut side = get(work, mem.rhs + i, width);
    for e in ends[i] as usize..g {
        let j = columns[e] as usize;
        let start = splat(0.0);
        let sum = normal_sum(work, width, values, lists, mem, e, start);
        let reduced = less_products(work, width, lists, mem.l, e, sum);
        let v = over_diagonal(work, width, lists, mem.l, j, reduced);
        put(work, mem.l + e, width, v);
        let u = get(work, mem.dy + j, width);
        let p = less_in(diag, v, v);
        let q = less_in(side, u, v);
        diag = p;
        side = q;
    }
    let root = root_of(diag);
    put(work, mem.l + g, width, root);
    div4(side, root)
}
