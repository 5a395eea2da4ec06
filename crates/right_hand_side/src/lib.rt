// The right-hand side of a step's normal equations, over the one working memory.
#![tactic(auto)]

ghost use Rattle.std.specs.Prelude.{◌≡◌, ◌<◌};
ghost use Rattle.std.specs.Float.Ieee.{neg};
ghost use Rattle.lanes.specs.Lists.{at};
ghost use Rattle.lanes.specs.Arithmetic.{◌⊕◌, ◌⊖◌, ◌⊗◌, ◌⊘◌};
ghost use Rattle.lanes.specs.Lanes.{lanes, On};
ghost use Rattle.sparse.specs.Parts.{Rows, Cols};
ghost use Rattle.kernels.specs.Kernels.{Laid, Within, y_in};
ghost use Rattle.right_hand_side.specs.RightHandSide.{v_start, RightU, RightF};

use entries::{get, get_lanes, put};
use lanes::{add4, div4, mul4, neg4, sub4, zero4};
use layout::{Block, Regions};
use sparse::{ByColumn, ByRow};

fn u_in(x: [f64; 4], cost: [f64; 4], over: [f64; 4], z: [f64; 4]) -> [f64; 4]
    ensures { result ≡ lanes (λ l. at x l ⊗ (at cost l ⊕ at over l) ⊘ at z l) }
{
    let p = add4(cost, over);
    div4(mul4(x, p), z)
}

fn f_in(b: [f64; 4], v: [f64; 4], au: [f64; 4]) -> [f64; 4]
    ensures { result ≡ lanes (λ l. neg ((at b l ⊖ at v l) ⊖ at au l)) }
{
    neg4(sub4(sub4(b, v), au))
}

// The start of v_i, and of r_i: a slack row's differs.
#[tactic(auto, using(lanes::proofs::Regions::room_le))]
fn v_start(work: &[f64], width: usize, mem: Regions, i: usize, mu: [f64; 4]) -> [f64; 4]
    requires { (i < mem.m) × Laid width mem work.now }
    ensures { On width result (λ l. v_start mem.s (at mu l) (y_in width mem work.now l) i) }
{
    let s = mem.s;
    let y = mem.y;
    if i < s {
        return div4(mu, get(work, y + i, width));
    }
    zero4()
}

// The reduced costs c − Aᵀy, mu/x and, of both, u.
#[tactic(auto, using(lanes::proofs::Regions::room_le))]
pub fn rhs_u(
    columns: &ByColumn<'_>,
    c: &[f64],
    block: Block,
    work: &mut [f64],
    width: usize,
    mem: Regions,
    mu: [f64; 4],
)
    requires { Cols mem.n mem.m columns.now.atindptr.now columns.now.atindices.now columns.now.atmap.now columns.now.vals.now × Laid width mem work.old × Within block width mem.n c.now }
    ensures { RightU width mem columns.now.atindptr.now columns.now.atindices.now columns.now.atmap.now columns.now.vals.now block c.now mu work.old work.new }
{
    let zero = zero4();
    for e in 0..mem.n {
        let a = columns.plus(work, width, mem.y, e, zero);
        let ce = get_lanes(c, block.total, e, block.first, width);
        let xe = get(work, mem.x + e, width);
        let ze = get(work, mem.z + e, width);
        let d = sub4(ce, a);
        let q = div4(mu, xe);
        let v = u_in(xe, d, q, ze);
        put(work, mem.dx + e, width, d);
        put(work, mem.dz + e, width, q);
        put(work, mem.tmp + e, width, v);
    }
}

#[tactic(auto, using(lanes::proofs::Regions::room_le))]
pub fn rhs_f(
    rows: &ByRow<'_>,
    b: &[f64],
    block: Block,
    work: &mut [f64],
    width: usize,
    mem: Regions,
    mu: [f64; 4],
)
    requires { Rows mem.m mem.n rows.now.off.now rows.now.cols.now rows.now.vals.now × Laid width mem work.old × Within block width mem.m b.now }
    ensures { RightF width mem rows.now.off.now rows.now.cols.now rows.now.vals.now block b.now mu work.old work.new }
{
    let zero = zero4();
    for i in 0..mem.m {
        let q = v_start(work, width, mem, i, mu);
        let sums = rows.plus_two(work, width, mem.x, mem.tmp, i, q, zero);
        let p = sums.first;
        let a = sums.second;
        let be = get_lanes(b, block.total, i, block.first, width);
        let v = f_in(be, p, a);
        put(work, mem.rhs + i, width, v);
    }
}
