// The lent matrix: its rows, and questions 1 to 5.
#![tactic(auto)]

ghost use Rattle.std.specs.Prelude.{◌≡◌, ℕ, ◌+◌, ◌≤◌, IfOk, ltb, length, get_or};
ghost use Rattle.base.specs.Numbers.{Part, below};
ghost use Rattle.base.proofs.Facts.{facts};
ghost use Rattle.csr.specs.Pattern.{row};
ghost use Rattle.csr.specs.Csr.{Offsets, Accepted};
ghost use Rattle.csr.specs.Verdict.{at, numbered, told_asked};
ghost use Rattle.csr.specs.Questions.{first_from, bad_row, offsets_right, rows_right, first_no, max_rows};

// A no, by its question. A row that is refused is named by its place, a test by its number, and a lane by its own.
#[derive(Clone, Copy, Debug, PartialEq, Eq)]
pub enum Refusal {
    Rows,
    Columns,
    Offsets,
    EmptyRow(usize),
    ColumnOrder(usize),
    IndexMemory,
    SlackRows,
    Lengths,
    WorkingMemory,
    Limit,
    Spoilt(usize, u32),
    NotDone(usize),
    Fractions,
    CutShort,
    OutOfOrder,
    OtherLists,
}

// A no as document 01 numbers it: the question, its place and its lane, 0 where the question names none.
// Numbers and not an enum: so C callers and the texts of answers have it.
#[derive(Clone, Copy, Debug, PartialEq, Eq)]
pub struct Numbered {
    pub question: u32,
    pub place: usize,
    pub lane: u32,
}

impl Numbered {
    // A no that names no lane.
    fn at(question: u32, place: usize) -> Self
        ensures { result ≡ at question place }
    {
        Self {
            question,
            place,
            lane: 0,
        }
    }
}

impl From<Refusal> for Numbered {
    ghost from_gives = { λ r n. n ≡ numbered r };

    fn from(refusal: Refusal) -> Self {
        match refusal {
            Refusal::Rows => Self::at(1, 0),
            Refusal::Columns => Self::at(2, 0),
            Refusal::Offsets => Self::at(3, 0),
            Refusal::EmptyRow(row) => Self::at(4, row),
            Refusal::ColumnOrder(row) => Self::at(5, row),
            Refusal::IndexMemory => Self::at(6, 0),
            Refusal::SlackRows => Self::at(7, 0),
            Refusal::Lengths => Self::at(8, 0),
            Refusal::WorkingMemory => Self::at(9, 0),
            Refusal::Limit => Self::at(10, 0),
            Refusal::Spoilt(test, lane) => Self {
                question: 11,
                place: test,
                lane,
            },
            Refusal::NotDone(limit) => Self::at(12, limit),
            Refusal::Fractions => Self::at(13, 0),
            Refusal::CutShort => Self::at(14, 0),
            Refusal::OutOfOrder => Self::at(15, 0),
            Refusal::OtherLists => Self::at(16, 0),
        }
    }
}

// Lists of rows: row i's columns stand from number i of the offsets to number i + 1.
#[derive(Clone, Copy)]
pub struct Rows<'a> {
    pub offsets: &'a [u32],
    pub columns: &'a [u32],
}

impl<'a> Rows<'a> {
    // The columns of row i.
    #[tactic(auto, unfolding(crate::specs::Pattern::row))]
    pub fn row(&self, i: usize) -> &'a [u32]
        requires { Part self.now.offsets.now i (length self.now.columns.now) }
        ensures { result.now ≡ row self.now.offsets.now self.now.columns.now i }
    {
        base::span(self.offsets, self.columns, i)
    }
}

// A matrix whose lists fit together, within the limits: what questions 1 to 5 leave known.
#[derive(Clone, Copy)]
pub struct Matrix<'a> {
    pub m: usize,
    pub n: usize,
    pub rows: Rows<'a>,
    ghost accepted: { Accepted rows.offsets.now rows.columns.now m n } by { Prim.hlevel facts },
}

// The first row below m with fewer than `least` entries. Where the offsets fall a row has fewer than none.
fn first_short(offsets: &[u32], least: usize, m: usize) -> Option<usize>
    requires { (length offsets.now ≡ m + 1) × (least ≤ 1) }
    ensures { result ≡ below m (first_from (λ (k : ℕ). ltb (get_or offsets.now (k + 1) 0) (get_or offsets.now k 0 + least)) 0 m) }
{
    // A loop: `find` over the rows took 1.05 to 1.08 times as long in `ipm_sizes`.
    for k in 0..m {
        if (offsets[k + 1] as usize) < offsets[k] as usize + least {
            return Some(k);
        }
    }
    None
}

// Whether a row's columns fail to rise strictly or to stay below n.
fn is_bad(row: &[u32], n: usize) -> bool
    ensures { result ≡ bad_row n row.now }
{
    // A loop: `any` and `windows` look at each row twice, 2.98 microseconds for 2.41 in `ipm_sizes` of 256 short rows.
    for (k, x) in row.iter().enumerate() {
        if *x as usize >= n {
            return true;
        }
        if k > 0 && *x <= row[k - 1] {
            return true;
        }
    }
    false
}

// The first row below m that is bad.
fn first_bad(rows: &Rows<'_>, m: usize, n: usize) -> Option<usize>
    requires { Offsets m rows.now.offsets.now (length rows.now.columns.now) }
    ensures { result ≡ below m (first_from (λ (i : ℕ). bad_row n (row rows.now.offsets.now rows.now.columns.now i)) 0 m) }
{
    for i in 0..m {
        if is_bad(rows.row(i), n) {
            return Some(i);
        }
    }
    None
}

// Question 3, of t columns and so many values.
#[tactic(auto, using(crate::proofs::Right::no_short), unfolding(crate::specs::Questions::offsets_right))]
fn offsets_right(offsets: &[u32], t: usize, values: usize, m: usize) -> bool
    requires { m ≤ max_rows }
    ensures { result ≡ offsets_right m offsets.now t values }
{
    offsets.len() == m + 1
        && offsets[0] == 0
        && first_short(offsets, 0, m).is_none()
        && offsets[m] as usize == t
        && t <= layout::Plan::MAX_ENTRIES
        && values == t
}

// Question 1.
pub fn rows_right(m: usize) -> bool
    ensures { result ≡ rows_right m }
{
    (1..=layout::Plan::MAX_ROWS).contains(&m)
}

// Questions 1 to 5, in order.
fn ask_lists(m: usize, n: usize, rows: &Rows<'_>, values: usize) -> Result<(), Refusal>
    ensures { told_asked result ≡ first_no m n rows.now.offsets.now rows.now.columns.now values }
{
    if !rows_right(m) {
        return Err(Refusal::Rows);
    }
    if !(1..=layout::Plan::MAX_COLUMNS).contains(&n) {
        return Err(Refusal::Columns);
    }
    if !offsets_right(rows.offsets, rows.columns.len(), values, m) {
        return Err(Refusal::Offsets);
    }
    if let Some(row) = first_short(rows.offsets, 1, m) {
        return Err(Refusal::EmptyRow(row));
    }
    if let Some(row) = first_bad(rows, m, n) {
        return Err(Refusal::ColumnOrder(row));
    }
    Ok(())
}

// Questions 1 to 5, in order, over any numbers and lists.
// Part of each caller, so that the matrix does not come back through the memory of a `Result`: docs/SPEED.md.
#[inline(always)]
pub fn ask<'a>(m: usize, n: usize, rows: &Rows<'a>, values: usize) -> Result<Matrix<'a>, Refusal>
    ensures verdict { told_asked result ≡ first_no m n rows.now.offsets.now rows.now.columns.now values }
    ensures matrix { IfOk result (λ M. (M.m ≡ m) × (M.n ≡ n) × (M.rows ≡ rows.now)) }
{
    ask_lists(m, n, rows, values)?;
    Ok(Matrix { m, n, rows: *rows })
}
