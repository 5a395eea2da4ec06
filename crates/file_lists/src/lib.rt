// Question 16 for one list: are a body's numbers the matrix's list k?
#![tactic(auto)]

ghost use Rattle.std.specs.Prelude.{◌≡◌, ℕ, ◌<◌, ◌≤◌, length};
ghost use Rattle.lists.specs.Lists.{Shape, shape};
ghost use Rattle.base.proofs.Facts.{facts};
ghost use Rattle.transpose.specs.Bins.{Room, cols_of};
ghost use Rattle.plan_file.specs.Matrix.{list_at, matrix_lists};
ghost use Rattle.plan_file.specs.Verdicts.{same};
ghost use Rattle.file_numbers.specs.Agree.{numbers_of};
ghost use Rattle.file_lists.specs.Known.{Known};
ghost use Rattle.file_lists.specs.Sizes.{side_list, of_kind};

mod columns;
mod pairs;

use layout::Plan;
use lists::{Side, What, Which};
use pair_lists::Source;
use transpose::SparseRows;

// One of the three lists of a transpose: its ends, or its entries by their rows or by their places.
#[derive(Clone, Copy)]
enum Part {
    Ends,
    Entries(What),
}

// What a list is: one that goes pair by pair, or one of a transpose.
#[derive(Clone, Copy)]
enum Kind {
    Pairs(Which),
    Columns(Side, Part),
}

// What list number k is, 1 to 16.
fn kind_of(k: usize) -> Kind
    requires { (1 ≤ k) × (k ≤ 16) }
    ensures { (g : Shape) (m n : ℕ) → of_kind g m n result ≡ list_at g m n k }
{
    // The arms do different things: there is no one step to hand over.
    match k {
        11 => Kind::Columns(Side::Factor, Part::Ends),
        12 => Kind::Columns(Side::Factor, Part::Entries(What::Numbers)),
        13 => Kind::Columns(Side::Factor, Part::Entries(What::Places)),
        14 => Kind::Columns(Side::Matrix, Part::Ends),
        15 => Kind::Columns(Side::Matrix, Part::Entries(What::Numbers)),
        16 => Kind::Columns(Side::Matrix, Part::Entries(What::Places)),
        _ => Kind::Pairs(lists::which_field(k - 1)),
    }
}

// What question 16 compares with: a matrix with its factor's rows, and the sizes of its plan.
#[derive(Clone, Copy)]
pub struct Expected<'a> {
    pub source: Source<'a>,
    pub plan: Plan,
    ghost known: { Known source.rows.offsets.now source.rows.columns.now plan source.factor.p.now source.factor.lindptr.now source.factor.lindices.now } by { Prim.hlevel facts },
    ghost same_m: { source.m ≡ plan.m },
    ghost same_n: { source.n ≡ plan.n },
}

// Are the numbers of a body, as many as a list of a transpose has, that list?
fn is_side_list(
    rows: &SparseRows<'_>,
    part: Part,
    body: &[u8],
    next: &mut [u32],
    again: &mut [u32],
    made: &mut [u32],
) -> bool
    requires { (rows.now.n < length next.old) × (rows.now.n < length again.old) × (rows.now.n < length made.old) × (length (numbers_of body.now) ≡ length (side_list rows.now.offsets.now (cols_of rows.now.columns) rows.now.m rows.now.n part)) }
    ensures { result ≡ same (numbers_of body.now) (side_list rows.now.offsets.now (cols_of rows.now.columns) rows.now.m rows.now.n part) }
{
    let words = columns::put_starts(rows, next, again, made);
    // The arms do different things: there is no one step to hand over.
    match part {
        Part::Ends => file_numbers::is_same(body, 0, made, words),
        Part::Entries(what) => columns::match_rows(rows, what, next, body),
    }
}

impl Expected<'_> {
    // Are they a list of one of the two transposes?
    fn is_column_list(
        &self,
        side: Side,
        part: Part,
        body: &[u8],
        next: &mut [u32],
        again: &mut [u32],
        made: &mut [u32],
    ) -> bool
        requires { (length (numbers_of body.now) ≡ length (of_kind (shape self.now.source.rows.offsets.now self.now.source.rows.columns.now) self.now.plan.m self.now.plan.n (Kind.Columns side part))) × Room self.now.plan.m self.now.plan.n next.old × Room self.now.plan.m self.now.plan.n again.old × Room self.now.plan.m self.now.plan.n made.old }
        ensures { result ≡ same (numbers_of body.now) (of_kind (shape self.now.source.rows.offsets.now self.now.source.rows.columns.now) self.now.plan.m self.now.plan.n (Kind.Columns side part)) }
    {
        // The arms do different things: there is no one step to hand over.
        let rows = match side {
            Side::Factor => self.source.factor_rows(),
            Side::Matrix => self.source.matrix_rows(),
        };
        is_side_list(&rows, part, body, next, again, made)
    }

    // Are they one of the ten lists of pairs?
    fn is_pair_list(&self, which: Which, body: &[u8], mark: &mut [u32], made: &mut [u32]) -> bool
        requires { (length (numbers_of body.now) ≡ length (of_kind (shape self.now.source.rows.offsets.now self.now.source.rows.columns.now) self.now.plan.m self.now.plan.n (Kind.Pairs which))) × (self.now.plan.n ≤ length mark.old) × Room self.now.plan.m self.now.plan.n made.old }
        ensures { result ≡ same (numbers_of body.now) (of_kind (shape self.now.source.rows.offsets.now self.now.source.rows.columns.now) self.now.plan.m self.now.plan.n (Kind.Pairs which)) }
    {
        base::fill_front(mark, self.plan.n, 0);
        pairs::same_list(&self.source, which, mark, made, body)
    }

    // List number k, 1 to 16. What the memories hold after is open, here and in what it calls: each list clears or writes them first.
    pub fn is_list(
        &self,
        k: usize,
        body: &[u8],
        next: &mut [u32],
        again: &mut [u32],
        made: &mut [u32],
    ) -> bool
        requires { (1 ≤ k) × (k ≤ 16) × Room self.now.plan.m self.now.plan.n next.old × Room self.now.plan.m self.now.plan.n again.old × Room self.now.plan.m self.now.plan.n made.old }
        ensures { result ≡ same (numbers_of body.now) (matrix_lists self.now.source.rows.offsets.now self.now.source.rows.columns.now self.now.plan.m self.now.plan.n k) }
    {
        let sizes = self.plan.sizes();
        if file_numbers::count(body) != sizes[k - 1] {
            return false;
        }
        match kind_of(k) {
            Kind::Pairs(which) => self.is_pair_list(which, body, next, made),
            Kind::Columns(side, part) => self.is_column_list(side, part, body, next, again, made),
        }
    }
}
