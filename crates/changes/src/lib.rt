// The changes of x, z and w in a step, and the largest ratio that bounds its length, over the one working memory.
#![tactic(auto)]

ghost use Rattle.std.specs.Prelude.{◌≡◌};
ghost use Rattle.std.specs.Float.Ieee.{neg};
ghost use Rattle.lanes.specs.Lists.{at};
ghost use Rattle.lanes.specs.Arithmetic.{◌⊕◌, ◌⊖◌, ◌⊗◌, ◌⊘◌, larger};
ghost use Rattle.lanes.specs.Lanes.{lanes};
ghost use Rattle.sparse.specs.Parts.{Cols};
ghost use Rattle.kernels.specs.Kernels.{Laid};
ghost use Rattle.changes.specs.Changes.{ColumnsChanged, SlackChanged};

use entries::{get, put};
use lanes::{add4, div4, larger4, mul4, neg4, sub4, zero4};
use layout::Regions;
use sparse::ByColumn;

fn dx_in(cost: [f64; 4], da: [f64; 4], over: [f64; 4], x: [f64; 4], z: [f64; 4]) -> [f64; 4]
    ensures { result ≡ lanes (λ l. (at cost l ⊖ at da l ⊕ at over l) ⊗ at x l ⊘ at z l) }
{
    let g = sub4(cost, da);
    let p = add4(g, over);
    div4(mul4(p, x), z)
}

fn complement_in(mu: [f64; 4], p: [f64; 4], dr: [f64; 4], r: [f64; 4]) -> [f64; 4]
    ensures { result ≡ lanes (λ l. (at mu l ⊖ at p l ⊗ at dr l) ⊘ at r l ⊖ at p l) }
{
    sub4(div4(sub4(mu, mul4(p, dr)), r), p)
}

fn ratio_in(v: [f64; 4], da: [f64; 4], a: [f64; 4], db: [f64; 4], b: [f64; 4]) -> [f64; 4]
    ensures { result ≡ lanes (λ l. larger (larger (at v l) (neg (at da l) ⊘ at a l)) (neg (at db l) ⊘ at b l)) }
{
    let p = div4(neg4(da), a);
    let q = div4(neg4(db), b);
    larger4(larger4(v, p), q)
}

// dx, in place of the reduced costs, and dz, in place of mu/x; the largest ratio of both.
#[tactic(auto, using(lanes::proofs::Regions::room_le))]
pub fn column_changes(
    columns: &ByColumn<'_>,
    work: &mut [f64],
    width: usize,
    mem: Regions,
    mu: [f64; 4],
) -> [f64; 4]
    requires { Cols mem.n mem.m columns.now.atindptr.now columns.now.atindices.now columns.now.atmap.now columns.now.vals.now × Laid width mem work.old }
    ensures { ColumnsChanged width mem columns.now.atindptr.now columns.now.atindices.now columns.now.atmap.now columns.now.vals.now mu work.old work.new result }
{
    let zero = zero4();
    let mut acc = zero4();
    for e in 0..mem.n {
        let da = columns.plus(work, width, mem.dy, e, zero);
        let d = get(work, mem.dx + e, width);
        let q = get(work, mem.dz + e, width);
        let xe = get(work, mem.x + e, width);
        let ze = get(work, mem.z + e, width);
        let dxe = dx_in(d, da, q, xe, ze);
        let dze = complement_in(mu, ze, dxe, xe);
        let t = ratio_in(acc, dxe, xe, dze, ze);
        put(work, mem.dx + e, width, dxe);
        put(work, mem.dz + e, width, dze);
        acc = t;
    }
    acc
}

// dw of w, y, dy, over the slack rows; the largest ratio of dw and dy.
#[tactic(auto, using(lanes::proofs::Regions::room_le))]
pub fn slack_changes(work: &mut [f64], width: usize, mem: Regions, mu: [f64; 4]) -> [f64; 4]
    requires { Laid width mem work.old }
    ensures { SlackChanged width mem mu work.old work.new result }
{
    let mut acc = zero4();
    for i in 0..mem.s {
        let wi = get(work, mem.w + i, width);
        let di = get(work, mem.dy + i, width);
        let yi = get(work, mem.y + i, width);
        let v = complement_in(mu, wi, di, yi);
        let t = ratio_in(acc, v, wi, di, yi);
        put(work, mem.dw + i, width, v);
        acc = t;
    }
    acc
}
