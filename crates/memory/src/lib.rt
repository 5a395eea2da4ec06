// What a run is given; definitions and laws of the index memory that begins with a plan, and of the lanes' numbers in the working memory.
#![tactic(auto)]

ghost use Rattle.std.specs.Prelude.{◌≡◌};
ghost use Rattle.base.proofs.Facts.{facts};
ghost use Rattle.memory.specs.Planned.{PlanIn};

use layout::{Block, Lists};
use sparse::{ByColumn, ByRow};

// What a block of lanes solves: an accepted matrix by its rows, the lists of its plan, and b, c and the tolerances of all lanes.
#[derive(Clone, Copy)]
pub struct Task<'a> {
    pub rows: ByRow<'a>,
    pub lists: Lists<'a>,
    pub b: &'a [f64],
    pub c: &'a [f64],
    pub tolerances: &'a [f64],
    pub block: Block,
    ghost planned: { PlanIn rows.off.now rows.cols.now rows.vals.now lists.plan lists.index.now } by { Prim.hlevel facts },
}

impl<'a> Task<'a> {
    // The matrix by its columns.
    pub fn columns(&self) -> ByColumn<'a>
        ensures { (result.atindptr.now ≡ self.now.lists.atindptr.now) × (result.atindices.now ≡ self.now.lists.atindices.now) × (result.atmap.now ≡ self.now.lists.atmap.now) × (result.vals.now ≡ self.now.rows.vals.now) }
    {
        ByColumn {
            atindptr: self.lists.atindptr,
            atindices: self.lists.atindices,
            atmap: self.lists.atmap,
            vals: self.rows.vals,
        }
    }
}
