// The transpose of rows by counting, and what pairs of rows share, counted by column.
#![tactic(auto)]

ghost use Rattle.std.specs.Prelude.{◌≡◌, ℕ, ◌+◌, ◌<◌, ◌≤◌, ◌*◌, length, get_or, set};
ghost use Rattle.csr.specs.Counts.{count_s};
ghost use Rattle.std.proofs.lemmas.List.Edits.{sets};
ghost use Rattle.base.specs.Cat.{Wrote, cat};
ghost use Rattle.base.proofs.Facts.{facts};
ghost use Rattle.transpose.specs.Bins.{rows_of, EmptyBins, Scattering, Scattered, Grid, Uncounted, Starts, seen, RowCounting, RowCounted, ends_from, side_in, cols_of};
ghost use Rattle.lists.specs.Lists.{by_what};
ghost use Rattle.csr.specs.Questions.{max_rows, max_columns};
ghost use Rattle.csr.specs.Csr.{max_places};

use lists::What;
use std::mem;

// The columns of rows, one row after the other: the matrix's are words, the factor's are bytes.
#[derive(Clone, Copy)]
pub enum Columns<'a> {
    Words(&'a [u32]),
    Bytes(&'a [u8]),
}

// Word k of a list. As a parameter of its own a slice is known to the check to be no longer than memory, which `words[k]` in `at` needs.
fn word(words: &[u32], k: usize) -> u32
    requires { k < length words.now }
    ensures { result ≡ get_or words.now k 0 }
{
    words[k]
}

impl Columns<'_> {
    // Number k of them.
    pub fn at(&self, k: usize) -> usize
        requires { k < length (cols_of self.now) }
        ensures { result ≡ get_or (cols_of self.now) k 0 }
    {
        // The arms do different things: there is no one step to hand over.
        match self {
            Self::Words(words) => word(words, k) as usize,
            Self::Bytes(bytes) => bytes[k] as usize,
        }
    }
}

// m rows with rising columns below n: the matrix's, or the factor's.
#[derive(Clone, Copy)]
pub struct SparseRows<'a> {
    pub m: usize,
    pub n: usize,
    pub offsets: &'a [u32],
    pub columns: Columns<'a>,
    ghost grid: { Grid offsets.now (cols_of columns) m n } by { Prim.hlevel facts },
}

// Where column e has got to, and one on.
pub fn step(next: &mut [u32], e: usize) -> usize
    requires { (e < length next.old) × (get_or next.old e 0 < max_rows * max_columns) }
    ensures { (result ≡ get_or next.old e 0) × (next.new ≡ set next.old e (get_or next.old e 0 + 1)) }
{
    let q = next[e];
    next[e] = q + 1;
    q as usize
}

// One more word into the bin of column e.
fn put_in(index: &mut [u32], next: &mut [u32], start: usize, e: usize, x: u32)
    requires { (e < length next.old) × (start + get_or next.old e 0 < length index.old) × (get_or next.old e 0 < max_rows * max_columns) }
    ensures { (index.new ≡ set index.old (start + get_or next.old e 0) x) × (next.new ≡ set next.old e (get_or next.old e 0 + 1)) }
{
    let q = step(next, e);
    index[start + q] = x;
}

// What a list has for an entry of row i: its row or its place.
pub fn of_entry(what: What, i: u32, place: u32) -> u32
    ensures { result ≡ by_what what i place }
{
    // The arms do different things: there is no one step to hand over.
    match what {
        What::Numbers => i,
        What::Places => place,
    }
}

// From the counts of n columns: their ends to the index memory, and their starts to two memories.
pub fn put_ends(
    n: usize,
    index: &mut [u32],
    next: &mut [u32],
    again: &mut [u32],
    start: usize,
) -> usize
    requires { (n < length next.old) × (n < length again.old) × (n ≤ max_columns) × ((c : ℕ) → c < n → get_or next.old c 0 ≤ max_rows) × (start + n + 1 ≤ length index.old) }
    ensures ends { Wrote index.old index.new start (ends_from (λ c. get_or next.old c 0) n) result }
    ensures starts { Starts next.new n (λ c. get_or next.old c 0) × Starts again.new (n + 1) (λ c. get_or next.old c 0) }
{
    let mut at = base::put(index, start, 0);
    let mut t: u32 = 0;
    for e in 0..n {
        let c = mem::replace(&mut next[e], t);
        again[e] = t;
        t += c;
        at = base::put(index, at, t);
    }
    again[n] = t;
    at
}

// The entries of row i, each counted in its column: how many columns it shares with the rows up to it.
fn count_row(offsets: &[u32], columns: &Columns<'_>, i: usize, next: &mut [u32]) -> usize
    requires { RowCounting offsets.now (cols_of columns.now) i next.old }
    ensures { RowCounted offsets.now (cols_of columns.now) i next.old next.new result }
{
    let mut s: usize = 0;
    for k in offsets[i] as usize..offsets[i + 1] as usize {
        let e = columns.at(k);
        s += step(next, e) + 1;
    }
    s
}

// How many entries each column of m rows has, and S. The number of columns is not asked for: that they lie below some number is enough.
pub fn count_rows(offsets: &[u32], columns: &Columns<'_>, m: usize, next: &mut [u32]) -> usize
    requires { Uncounted offsets.now (cols_of columns.now) m next.old }
    ensures { ((c : ℕ) → get_or next.new c 0 ≡ get_or next.old c 0 + length (seen offsets.now (cols_of columns.now) m c)) × (result ≡ count_s offsets.now (cols_of columns.now) m) × (result ≤ max_rows * max_places) }
{
    let mut s: usize = 0;
    for i in 0..m {
        s += count_row(offsets, columns, i, next);
    }
    s
}

impl SparseRows<'_> {
    // The entries of row i, each into its column's bin.
    fn scatter_row(&self, what: What, i: usize, index: &mut [u32], next: &mut [u32], start: usize)
        requires { Scattering self.now.offsets.now (cols_of self.now.columns) self.now.m self.now.n what i index.old next.old start }
        ensures { Scattered self.now.offsets.now (cols_of self.now.columns) self.now.m self.now.n what (i + 1) index.old index.new next.new start }
    {
        let columns = self.columns;
        for k in self.offsets[i] as usize..self.offsets[i + 1] as usize {
            let e = columns.at(k);
            let x = of_entry(what, i as u32, k as u32);
            put_in(index, next, start, e, x);
        }
    }

    // How many entries each column has, and S.
    pub fn count_rows(&self, next: &mut [u32]) -> usize
        requires { Uncounted self.now.offsets.now (cols_of self.now.columns) self.now.m next.old }
        ensures { ((c : ℕ) → get_or next.new c 0 ≡ get_or next.old c 0 + length (seen self.now.offsets.now (cols_of self.now.columns) self.now.m c)) × (result ≡ count_s self.now.offsets.now (cols_of self.now.columns) self.now.m) × (result ≤ max_rows * max_places) }
    {
        count_rows(self.offsets, &self.columns, self.m, next)
    }

    // The entries of all rows, each into its column's bin.
    fn scatter(&self, what: What, index: &mut [u32], next: &mut [u32], start: usize)
        requires { EmptyBins self.now.offsets.now (cols_of self.now.columns) self.now.m self.now.n index.old next.old start }
        ensures { index.new ≡ sets index.old start (cat self.now.n (rows_of self.now.offsets.now (cols_of self.now.columns) what self.now.m)) }
    {
        for i in 0..self.m {
            self.scatter_row(what, i, index, next, start);
        }
    }

    // The three lists of the transpose: ends, rows and places. Two memories hold a word for each column.
    // What the two memories hold after is open: whoever uses them next writes them first.
    pub fn transpose(
        &self,
        next: &mut [u32],
        again: &mut [u32],
        index: &mut [u32],
        start: usize,
    ) -> usize
        requires { (start + length (side_in self.now.offsets.now (cols_of self.now.columns) self.now.m self.now.n) ≤ length index.old) × (self.now.n < length next.old) × (self.now.n < length again.old) }
        ensures { Wrote index.old index.new start (side_in self.now.offsets.now (cols_of self.now.columns) self.now.m self.now.n) result }
    {
        base::fill_front(next, self.n, 0);
        self.count_rows(next);
        let a = put_ends(self.n, index, next, again, start);
        let t = again[self.n] as usize;
        self.scatter(What::Numbers, index, next, a);
        self.scatter(What::Places, index, again, a + t);
        a + t + t
    }
}
