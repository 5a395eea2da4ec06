// The pattern of the factor: 256 bits for each row, four words of 64.
#![tactic(auto)]

ghost use Rattle.std.specs.Prelude.{◌≡◌, Bool, true, false, ◌&&◌, ℕ, ◌+◌, ◌<◌, ◌≤◌, length, get_or, cond, eqb};
ghost use Rattle.pattern.specs.Word.{bit, Put, Done, Whole, Seeded, OtherRows, row_ones, common_word, Clear, Linked};
ghost use Rattle.base.specs.Sums.{sum, one};
ghost use Rattle.csr.specs.Pattern.{neighbours};
ghost use Rattle.csr.specs.Csr.{Csr, RowOf};
ghost use Rattle.pattern.specs.Links.{or_else, first_of, links, Inside, Firsts};
ghost use Rattle.csr.specs.Questions.{max_rows, max_columns};

use csr::Rows;
use layout::Plan;

// The bits of a word, the words of a row, and of all rows.
const WORD_BITS: usize = 64;

const ROW_WORDS: usize = 4;

pub const WORDS: usize = ROW_WORDS * Plan::MAX_ROWS;

// Is bit j of row i set?
pub fn test(p: &[u64; WORDS], i: usize, j: usize) -> bool
    requires { (i < max_rows) × (j < max_rows) }
    ensures { result ≡ bit p.now i j }
{
    let w = p[i * ROW_WORDS + j / WORD_BITS];
    (w >> (j % WORD_BITS)) % 2 == 1
}

// Set bit j of row i.
fn put(p: &mut [u64; WORDS], i: usize, j: usize)
    requires { (i < max_rows) × (j < max_rows) }
    ensures { Put p.old p.new i j }
{
    let at = i * ROW_WORDS + j / WORD_BITS;
    p[at] |= 1u64 << (j % WORD_BITS);
}

// Word w of what rows i and j have in common.
fn common_word(p: &[u64; WORDS], i: usize, j: usize, w: usize) -> u64
    requires { (i < max_rows) × (j < max_rows) × (w < 4) }
    ensures { result ≡ common_word p.now i j w }
{
    p[i * ROW_WORDS + w] & p[j * ROW_WORDS + w]
}

// Have rows i and j a bit in common?
fn meets(p: &[u64; WORDS], i: usize, j: usize) -> bool
    requires { (i < max_rows) × (j < max_rows) }
    ensures yes { result ≡ true → (k : ℕ) × (k < max_rows) × (bit p.now i k ≡ true) × (bit p.now j k ≡ true) }
    ensures no { result ≡ false → (k : ℕ) → k < max_rows → bit p.now i k && bit p.now j k ≡ false }
{
    // `fold` and not `any`, which took 1.4 to 2 times as long on sparse patterns.
    (0..ROW_WORDS).fold(0, |all, w| all | common_word(p, i, j, w)) != 0
}

// Fill row i: the rows below it are done, and it holds its diagonal and its neighbours.
fn fill_row(p: &mut [u64; WORDS], i: usize)
    requires { i < max_rows }
    ensures other { OtherRows p.old p.new i }
    ensures row { (nb : ℕ → ℕ → Bool) → ((a : ℕ) → a < i → Done nb p.old a) → Seeded nb p.old i → Done nb p.new i }
{
    for j in 0..i {
        if meets(p, i, j) {
            put(p, i, j);
        }
    }
}

// How many bits rows i and j have in common.
pub fn both_ones(p: &[u64; WORDS], i: usize, j: usize) -> u32
    requires { (i < max_rows) × (j < max_rows) }
    ensures { (result ≡ sum max_rows (λ k. one (bit p.now i k && bit p.now j k))) × (result ≤ max_rows) }
{
    (0..ROW_WORDS)
        .map(|w| common_word(p, i, j, w).count_ones())
        .sum()
}

// How many bits are set in row i.
fn row_ones(p: &[u64; WORDS], i: usize) -> u32
    requires { i < max_rows }
    ensures { (result ≡ row_ones p.now i) × (result ≤ max_rows) }
{
    both_ones(p, i, i)
}

// How many bits are set in the first m rows.
pub fn count(p: &[u64; WORDS], m: usize) -> u32
    requires { m ≤ max_rows }
    ensures { result ≡ sum m (λ i. row_ones p.now i) }
{
    (0..m).map(|i| row_ones(p, i)).sum()
}

// Row i is linked to the first row of column e, or is that row itself.
fn link(p: &mut [u64; WORDS], first: &mut [u32], e: usize, i: usize)
    requires { (e < length first.old) × (i < max_rows) × (get_or first.old e 0 ≤ i + 1) }
    ensures first { (x : ℕ) → get_or first.new x 0 ≡ cond (eqb x e) (or_else (get_or first.old e 0) (i + 1)) (get_or first.old x 0) }
    ensures bits { Linked p.old p.new i (get_or first.old e 0) }
{
    let f = first[e];
    if f == 0 {
        first[e] = (i as u32) + 1;
    } else {
        put(p, i, (f - 1) as usize);
    }
}

// Put the links and the diagonal of row i into a clear row. `first` holds one more than the first row of each column.
fn seed_row(rows: &Rows<'_>, p: &mut [u64; WORDS], first: &mut [u32; Plan::MAX_COLUMNS], i: usize)
    requires { RowOf rows.now.offsets.now rows.now.columns.now i max_columns × (i < max_rows) × Clear p.old i × Firsts first.old (first_of rows.now.offsets.now rows.now.columns.now i) }
    ensures other { OtherRows p.old p.new i }
    ensures row { Seeded (links rows.now.offsets.now rows.now.columns.now) p.new i }
    ensures first { Firsts first.new (first_of rows.now.offsets.now rows.now.columns.now (i + 1)) }
{
    for e in rows.row(i) {
        link(p, first, *e as usize, i);
    }
    put(p, i, i);
}

// The whole pattern, into clear rows: those from m on stay clear.
pub fn pattern(rows: &Rows<'_>, m: usize, p: &mut [u64; WORDS])
    requires { Csr rows.now.offsets.now rows.now.columns.now m × Inside rows.now.offsets.now rows.now.columns.now m max_columns × ((i : ℕ) → i < max_rows → Clear p.old i) }
    ensures { Whole (neighbours rows.now.offsets.now rows.now.columns.now) p.new m }
{
    // A fixed memory: the project has no heap.
    let mut first = [0u32; Plan::MAX_COLUMNS];
    for i in 0..m {
        seed_row(rows, p, &mut first, i);
        fill_row(p, i);
    }
}
