// The residuals of a test, and the sums of their squares, over the one working memory.
#![tactic(auto)]

ghost use Rattle.std.specs.Prelude.{◌<◌};
ghost use Rattle.lanes.specs.Lanes.{On};
ghost use Rattle.sparse.specs.Parts.{Rows, Cols};
ghost use Rattle.kernels.specs.Kernels.{Laid, Within, lane_in, w_in};
ghost use Rattle.residuals.specs.Residuals.{r_start, primal_sum, dual_sum};

use entries::{get, get_lanes};
use lanes::{add4, sub4, zero4};
use layout::{Block, Regions};
use sparse::{ByColumn, ByRow, plus_in};

#[tactic(auto, using(lanes::proofs::Regions::room_le))]
fn r_start(b: &[f64], block: Block, work: &[f64], width: usize, mem: Regions, i: usize) -> [f64; 4]
    requires { (i < mem.m) × Laid width mem work.now × Within block width mem.m b.now }
    ensures { On width result (λ l. r_start mem.s (lane_in block mem.m b.now l) (w_in width mem work.now l) i) }
{
    let s = mem.s;
    let w = mem.w;
    let v = get_lanes(b, block.total, i, block.first, width);
    if i < s {
        return sub4(v, get(work, w + i, width));
    }
    v
}

// The sums of squares of the primal residuals.
pub fn primal_squares(
    rows: &ByRow<'_>,
    b: &[f64],
    block: Block,
    work: &[f64],
    width: usize,
    mem: Regions,
) -> [f64; 4]
    requires { Rows mem.m mem.n rows.now.off.now rows.now.cols.now rows.now.vals.now × Laid width mem work.now × Within block width mem.m b.now }
    ensures { On width result (primal_sum width mem rows.now.off.now rows.now.cols.now rows.now.vals.now block b.now work.now) }
{
    let mut acc = zero4();
    for i in 0..mem.m {
        let v = r_start(b, block, work, width, mem, i);
        let r = rows.less(work, width, mem.x, i, v);
        let t = plus_in(acc, r, r);
        acc = t;
    }
    acc
}

// The sums of squares of the dual residuals.
#[tactic(auto, using(lanes::proofs::Regions::room_le))]
pub fn dual_squares(
    columns: &ByColumn<'_>,
    c: &[f64],
    block: Block,
    work: &[f64],
    width: usize,
    mem: Regions,
) -> [f64; 4]
    requires { Cols mem.n mem.m columns.now.atindptr.now columns.now.atindices.now columns.now.atmap.now columns.now.vals.now × Laid width mem work.now × Within block width mem.n c.now }
    ensures { On width result (dual_sum width mem columns.now.atindptr.now columns.now.atindices.now columns.now.atmap.now columns.now.vals.now block c.now work.now) }
{
    let mut acc = zero4();
    for e in 0..mem.n {
        let a = get(work, mem.z + e, width);
        let g = get_lanes(c, block.total, e, block.first, width);
        let v = add4(a, g);
        let q = columns.less(work, width, mem.y, e, v);
        let t = plus_in(acc, q, q);
        acc = t;
    }
    acc
}
