// An entry of the factor: its shared columns' sum, its products, its diagonal.
#![tactic(auto)]

ghost use Rattle.std.specs.Prelude.{◌≡◌, cond, ◌+◌, ◌<◌, ◌≤◌, ltb, get_or};
ghost use Rattle.lanes.specs.Lists.{at as lane};
ghost use Rattle.lanes.specs.Lanes.{lanes, cell as here, On, Width, room};
ghost use Rattle.lanes.specs.Arithmetic.{◌⊕◌, ◌⊗◌, ◌⊘◌, √, magnitude, null};
ghost use Rattle.layout.specs.Lists.{ldiag_indptr_in};
ghost use Rattle.plan_laws.specs.Factoring.{NormalAt, NormalSum, ProductAt, ProductSum, DiagonalAt};

use entries::get;
use lanes::{above_zero, abs4, add4, div4, mul4, root4, splat};
use layout::{Lists, Regions};
use sparse::less_in;

// One shared column's part of the normal matrix: two stored values, x and z.
fn normal_in(acc: [f64; 4], a: f64, b: f64, x: [f64; 4], z: [f64; 4]) -> [f64; 4]
    ensures { result ≡ lanes (λ l. lane acc l ⊕ a ⊗ b ⊗ lane x l ⊘ lane z l) }
{
    add4(acc, div4(mul4(splat(a * b), x), z))
}

// The shared columns of entry e, added in turn.
#[tactic(auto, using(lanes::proofs::Regions::room_le))]
pub fn normal_sum(
    work: &[f64],
    width: usize,
    values: &[f64],
    lists: &Lists<'_>,
    mem: Regions,
    e: usize,
    start: [f64; 4],
) -> [f64; 4]
    requires { NormalAt width values.now lists.now.plan lists.now.index.now work.now mem.x mem.z e }
    ensures { NormalSum width values.now lists.now.plan lists.now.index.now work.now mem.x mem.z e start result }
{
    let ends = lists.anorm_indptr;
    let left = lists.anorm_indptr_i;
    let right = lists.anorm_indptr_j;
    let columns = lists.anorm_indices;
    let mut acc = start;
    for p in ends[e] as usize..ends[e + 1] as usize {
        let i = left[p] as usize;
        let j = right[p] as usize;
        let c = columns[p] as usize;
        let x = get(work, mem.x + c, width);
        let z = get(work, mem.z + c, width);
        // Through a name of its own, here and below: the check covers no array that a call lays straight into `acc`.
        let t = normal_in(acc, values[i], values[j], x, z);
        acc = t;
    }
    acc
}

// The products of the entries before e, subtracted in turn.
#[tactic(auto, using(lanes::proofs::Regions::room_le))]
pub fn less_products(
    work: &[f64],
    width: usize,
    lists: &Lists<'_>,
    lo: usize,
    e: usize,
    start: [f64; 4],
) -> [f64; 4]
    requires { ProductAt width lists.now.plan lists.now.index.now work.now lo e }
    ensures { ProductSum width lists.now.plan lists.now.index.now work.now lo e start result }
{
    let ends = lists.ldecomp_indptr;
    let left = lists.ldecomp_indptr_i;
    let right = lists.ldecomp_indptr_j;
    let mut acc = start;
    for p in ends[e] as usize..ends[e + 1] as usize {
        let i = left[p] as usize;
        let j = right[p] as usize;
        let a = get(work, lo + i, width);
        let b = get(work, lo + j, width);
        let t = less_in(acc, a, b);
        acc = t;
    }
    acc
}

// Where the diagonal's entry of row i starts: w / y in a slack row, else 0.
#[tactic(auto, using(lanes::proofs::Regions::room_le))]
pub fn start_of(work: &[f64], width: usize, y: usize, w: usize, s: usize, i: usize) -> [f64; 4]
    requires { (w + s ≤ room width work.now) × (y + i < room width work.now) × Width width }
    ensures { On width result (λ l. cond (ltb i s) (here width work.now (w + i) l ⊘ here width work.now (y + i) l) null) }
{
    if i < s {
        let a = get(work, w + i, width);
        let b = get(work, y + i, width);
        return div4(a, b);
    }
    splat(0.0)
}

// On the diagonal the root of the absolute value, which a number above zero is itself.
pub fn root_of(v: [f64; 4]) -> [f64; 4]
    ensures { result ≡ lanes (λ l. √ (magnitude (lane v l))) }
{
    if above_zero(v) {
        return root4(v);
    }
    let size = abs4(v);
    root4(size)
}

// Elsewhere over the diagonal's entry of the column's row.
#[tactic(auto, using(lanes::proofs::Regions::room_le))]
pub fn over_diagonal(
    work: &[f64],
    width: usize,
    lists: &Lists<'_>,
    lo: usize,
    j: usize,
    v: [f64; 4],
) -> [f64; 4]
    requires { DiagonalAt width lists.now.plan lists.now.index.now work.now lo j }
    ensures { On width result (λ l. lane v l ⊘ here width work.now (lo + get_or (ldiag_indptr_in lists.now.plan lists.now.index.now) j 0) l) }
{
    let d = lists.ldiag_indptr[j] as usize;
    let b = get(work, lo + d, width);
    div4(v, b)
}
