// The ten lists that are written pair by pair, for the stored pairs of the factor.
#![tactic(auto)]

ghost use Rattle.std.specs.Prelude.{◌≡◌, true, false, suc, ◌+◌, ◌-◌, ◌<◌, ◌≤◌, ◌∷◌, length, get_or};
ghost use Rattle.std.proofs.lemmas.List.Edits.{sets};
ghost use Rattle.pattern.specs.Word.{bit};
ghost use Rattle.base.specs.Sums.{sum};
ghost use Rattle.base.specs.Cat.{Wrote, cat};
ghost use Rattle.base.specs.Numbers.{Below};
ghost use Rattle.base.proofs.Facts.{facts};
ghost use Rattle.transpose.specs.Bins.{cols_of};
ghost use Rattle.lists.specs.Lists.{shape, walk_of, piece, weight, list_of, ten_of};
ghost use Rattle.pair_lists.specs.Kept.{kept, kept_rows, row_ends, Rows as RowsOf, places_of, marks_read, diagonal_only};
ghost use Rattle.pair_lists.specs.Listing.{Listing, Unmarked, RowReady, RowListing, InRow, Counting, AtPair};
ghost use Rattle.shared_columns.specs.Marked.{MarkedOver};
ghost use Rattle.csr.specs.Csr.{RowOf, max_places};
ghost use Rattle.csr.specs.Pattern.{row};
ghost use Rattle.csr.specs.Questions.{max_rows, max_entries};

use base::{keep, put};
use csr::Rows;
use lists::{Take, Which};
use pattern::WORDS;
use shared_columns::{count_shared, mark_row, put_shared};
use transpose::{Columns, SparseRows};

// Row i of the pattern as a list of bytes.
fn list_row(p: &[u64; WORDS], i: usize, lindices: &mut [u8], start: usize) -> usize
    requires { (i < max_rows) × (start + i + 1 ≤ length lindices.old) }
    ensures { Wrote lindices.old lindices.new start (kept (bit p.now i) (i + 1)) result }
{
    let mut at = start;
    for k in 0..i + 1 {
        at = keep(lindices, at, pattern::test(p, i, k).then_some(k as u8));
    }
    at
}

// The rows of the pattern as lists: their offsets and their columns.
pub fn list_rows(p: &[u64; WORDS], m: usize, lindptr: &mut [u32], lindices: &mut [u8])
    requires { (m ≤ max_rows) × (m < length lindptr.old) × (sum m suc ≤ length lindices.old) × (length lindices.old ≤ max_places) }
    ensures rows { RowsOf (bit p.now) lindptr.new lindices.new m }
    ensures offsets { lindptr.new ≡ sets lindptr.old 0 (0 ∷ row_ends (bit p.now) m) }
    ensures columns { lindices.new ≡ sets lindices.old 0 (kept_rows (bit p.now) m) }
{
    lindptr[0] = 0;
    let mut at = 0;
    for i in 0..m {
        at = list_row(p, i, lindices, at);
        lindptr[i + 1] = at as u32;
    }
}

// The places, from base on, of the numbers of a list that row q of the pattern holds.
fn places(p: &[u64; WORDS], q: usize, l: &[u8], base: u32, index: &mut [u32], start: usize) -> usize
    requires { (q < max_rows) × Below max_rows l.now × (base + length l.now ≤ max_places) × (start + length (places_of (bit p.now q) base l.now) ≤ length index.old) }
    ensures { Wrote index.old index.new start (places_of (bit p.now q) base l.now) result }
{
    let mut at = start;
    for (t, k) in l.iter().enumerate() {
        let here = pattern::test(p, q, *k as usize);
        at = keep(index, at, here.then_some(base + (t as u32)));
    }
    at
}

// The pattern of a factor as bits, and its rows as lists: row i's columns stand from number i of lindptr to number i + 1.
#[derive(Clone, Copy)]
pub struct FactorRows<'a> {
    pub p: &'a [u64; WORDS],
    pub lindptr: &'a [u32],
    pub lindices: &'a [u8],
}

impl FactorRows<'_> {
    // What stands in row r before its entry at t, and in row q too, by its place.
    pub fn products(&self, r: usize, q: usize, t: usize, index: &mut [u32], start: usize) -> usize
        requires { InRow (bit self.now.p.now) self.now.lindptr.now self.now.lindices.now r t × (q < max_rows) × (start + length (walk_of (bit self.now.p.now) r q (get_or self.now.lindices.now t 0) (get_or self.now.lindptr.now r 0)) ≤ length index.old) }
        ensures { Wrote index.old index.new start (walk_of (bit self.now.p.now) r q (get_or self.now.lindices.now t 0) (get_or self.now.lindptr.now r 0)) result }
    {
        let a = self.lindptr[r];
        places(self.p, q, &self.lindices[a as usize..t], a, index, start)
    }
}

// Does a list read the marks of a row?
fn reads_marks(which: Which) -> bool
    ensures { result ≡ marks_read which }
{
    matches!(
        which,
        Which::AnormIndptr | Which::AnormIndptrI | Which::AnormIndptrJ | Which::AnormIndices
    )
}

// Row i marked for a list that reads the marks.
pub fn mark_for(which: Which, rows: &Rows<'_>, i: usize, mark: &mut [u32])
    requires { RowOf rows.now.offsets.now rows.now.columns.now i (length mark.old) }
    ensures read { marks_read which ≡ true → MarkedOver mark.old mark.new (get_or rows.now.offsets.now i 0) (row rows.now.offsets.now rows.now.columns.now i) }
    ensures unread { marks_read which ≡ false → mark.new ≡ mark.old }
{
    if reads_marks(which) {
        mark_row(rows, i, mark);
    }
}

// What a list of ends counts at (i, j). Row i is marked.
pub fn weigh(
    which: Which,
    rows: &Rows<'_>,
    p: &[u64; WORDS],
    mark: &[u32],
    i: usize,
    j: usize,
) -> u32
    requires { RowReady which rows.now.offsets.now rows.now.columns.now p.now mark.now i × (j ≤ i) }
    ensures { (result ≡ weight (shape rows.now.offsets.now rows.now.columns.now) which i j) × (result ≤ max_entries) }
{
    // The arms do different things: there is no one step to hand over.
    match which {
        Which::AnormIndptr => count_shared(rows, mark, i, j) as u32,
        Which::LdecompIndptr => {
            let t = pattern::both_ones(p, i, j);
            if pattern::test(p, i, j) { t - 1 } else { t }
        }
        _ => 0,
    }
}

// Does a list have the diagonal alone?
fn on_diagonal(which: Which) -> bool
    ensures { result ≡ diagonal_only which }
{
    matches!(which, Which::Lindptr | Which::LdiagIndptr)
}

// The first stored pair of row i that a list looks at. The diagonal is the row's last.
pub fn row_first(which: Which, lindptr: &[u32], i: usize) -> usize
    requires { (i + 1 < length lindptr.now) × (1 ≤ get_or lindptr.now (i + 1) 0) }
    ensures last { diagonal_only which ≡ true → result ≡ get_or lindptr.now (i + 1) 0 - 1 }
    ensures first { diagonal_only which ≡ false → result ≡ get_or lindptr.now i 0 }
{
    if on_diagonal(which) {
        lindptr[i + 1] as usize - 1
    } else {
        lindptr[i] as usize
    }
}

// Where a list goes on, and what it has counted.
#[derive(Clone, Copy)]
pub struct Spot {
    pub at: usize,
    pub n: u32,
}

// A stored pair of the factor: its row, its column, and its place among the stored.
#[derive(Clone, Copy)]
pub struct Pair {
    pub i: usize,
    pub j: usize,
    pub t: usize,
}

// What the lists are written from: the matrix's m rows with n columns, and its factor's rows.
#[derive(Clone, Copy)]
pub struct Source<'a> {
    pub m: usize,
    pub n: usize,
    pub rows: Rows<'a>,
    pub factor: FactorRows<'a>,
    ghost listing: { Listing rows.offsets.now rows.columns.now m factor.p.now factor.lindptr.now factor.lindices.now n } by { Prim.hlevel facts },
}

impl<'a> Source<'a> {
    // The matrix's rows, as they are transposed.
    pub fn matrix_rows(&self) -> SparseRows<'a>
        ensures { (result.m ≡ self.now.m) × (result.n ≡ self.now.n) × (result.offsets.now ≡ self.now.rows.offsets.now) × (cols_of result.columns ≡ self.now.rows.columns.now) }
    {
        SparseRows {
            m: self.m,
            n: self.n,
            offsets: self.rows.offsets,
            columns: Columns::Words(self.rows.columns),
        }
    }

    // And the factor's.
    pub fn factor_rows(&self) -> SparseRows<'a>
        ensures { (result.m ≡ self.now.m) × (result.n ≡ self.now.m) × (result.offsets.now ≡ self.now.factor.lindptr.now) × (cols_of result.columns ≡ self.now.factor.lindices.now) }
    {
        SparseRows {
            m: self.m,
            n: self.m,
            offsets: self.factor.lindptr,
            columns: Columns::Bytes(self.factor.lindices),
        }
    }

    // What a stored pair adds to a list. n is what the list has counted.
    // It stands in two loops, plan's and a file's: as a call in them a plan took up to 1.5 times its time.
    #[inline(always)]
    pub fn put_piece(
        &self,
        which: Which,
        mark: &[u32],
        pair: Pair,
        n: u32,
        index: &mut [u32],
        at: usize,
    ) -> usize
        requires { RowListing which self.now.rows.offsets.now self.now.rows.columns.now self.now.factor.p.now self.now.factor.lindptr.now self.now.factor.lindices.now mark.now pair.i × AtPair which self.now.rows.offsets.now self.now.rows.columns.now self.now.factor.lindptr.now self.now.factor.lindices.now pair.i pair.j pair.t n × (at + length (piece (shape self.now.rows.offsets.now self.now.rows.columns.now) which pair.i pair.j) ≤ length index.old) }
        ensures { Wrote index.old index.new at (piece (shape self.now.rows.offsets.now self.now.rows.columns.now) which pair.i pair.j) result }
    {
        let Pair { i, j, t } = pair;
        let rows = &self.rows;
        // The arms do different things: there is no one step to hand over.
        match which {
            Which::AnormIndptr => put(index, at, n),
            Which::AnormIndptrI => put_shared(Take::Left, rows, mark, i, j, index, at),
            Which::AnormIndptrJ => put_shared(Take::Right, rows, mark, i, j, index, at),
            Which::AnormIndices => put_shared(Take::Column, rows, mark, i, j, index, at),
            Which::LdecompIndptr => put(index, at, n),
            Which::LdecompIndptrI => self.factor.products(i, j, t, index, at),
            Which::LdecompIndptrJ => {
                let last = self.factor.lindptr[j + 1] as usize - 1;
                self.factor.products(j, i, last, index, at)
            }
            Which::Lindptr => keep(index, at, (j == i).then_some(t as u32 + 1)),
            Which::LdiagIndptr => keep(index, at, (j == i).then_some(t as u32)),
            Which::Lindices => put(index, at, j as u32),
        }
    }

    // What row i adds to a list: one stored pair after the other.
    fn fill_row(
        &self,
        which: Which,
        mark: &[u32],
        i: usize,
        count: u32,
        index: &mut [u32],
        start: usize,
    ) -> Spot
        requires { RowListing which self.now.rows.offsets.now self.now.rows.columns.now self.now.factor.p.now self.now.factor.lindptr.now self.now.factor.lindices.now mark.now i × Counting which self.now.rows.offsets.now self.now.rows.columns.now i count × (start + length (cat (i + 1) (piece (shape self.now.rows.offsets.now self.now.rows.columns.now) which i)) ≤ length index.old) }
        ensures { Wrote index.old index.new start (cat (i + 1) (piece (shape self.now.rows.offsets.now self.now.rows.columns.now) which i)) result.at × Counting which self.now.rows.offsets.now self.now.rows.columns.now (i + 1) result.n }
    {
        let FactorRows {
            p,
            lindptr,
            lindices,
        } = self.factor;
        let mut at = start;
        let mut n = count;
        let end = lindptr[i + 1] as usize;
        for t in row_first(which, lindptr, i)..end {
            let j = lindices[t] as usize;
            n += weigh(which, &self.rows, p, mark, i, j);
            at = self.put_piece(which, mark, Pair { i, j, t }, n, index, at);
        }
        Spot { at, n }
    }

    // One of the ten lists that are written pair by pair.
    fn fill(&self, which: Which, mark: &mut [u32], index: &mut [u32], start: usize) -> usize
        requires { Unmarked self.now.rows.offsets.now self.now.rows.columns.now self.now.m self.now.factor.p.now self.now.factor.lindptr.now self.now.factor.lindices.now mark.old × (start + length (list_of (shape self.now.rows.offsets.now self.now.rows.columns.now) which self.now.m) ≤ length index.old) }
        ensures { Wrote index.old index.new start (list_of (shape self.now.rows.offsets.now self.now.rows.columns.now) which self.now.m) result }
    {
        let mut at = keep(index, start, lists::has_head(which).then_some(0));
        let mut n = 0;
        for i in 0..self.m {
            mark_for(which, &self.rows, i, mark);
            Spot { at, n } = self.fill_row(which, mark, i, n, index, at);
        }
        at
    }

    // The ten lists of pairs, one after the other.
    // What the marks are after is open: each list clears them first.
    pub fn put_ten(&self, mark: &mut [u32], index: &mut [u32], start: usize) -> usize
        requires { (start + length (ten_of (shape self.now.rows.offsets.now self.now.rows.columns.now) self.now.m 10) ≤ length index.old) × (self.now.n ≤ length mark.old) }
        ensures { Wrote index.old index.new start (ten_of (shape self.now.rows.offsets.now self.now.rows.columns.now) self.now.m 10) result }
    {
        let mut at = start;
        for k in 0..LISTS {
            base::fill_front(mark, self.n, 0);
            at = self.fill(lists::which_field(k), mark, index, at);
        }
        at
    }
}

// How many lists are written pair by pair.
const LISTS: usize = 10;
