// The ten lists of pairs: what each pair adds is made in a small memory and compared.
ghost use Rattle.std.specs.Prelude.{◌≡◌, true, false, ℕ, ◌+◌, ◌<◌, ◌≤◌, length, MatchOption};
ghost use Rattle.base.specs.Cat.{cat};
ghost use Rattle.lists.specs.Lists.{shape, piece, list_of};
ghost use Rattle.pair_lists.specs.Listing.{Unmarked, RowListing, Counting};
ghost use Rattle.file_numbers.specs.Agree.{numbers_of, agree};
ghost use Rattle.file_lists.specs.Sizes.{PieceRoom};

use file_numbers::is_same;
use lists::Which;
use pair_lists::{Pair, Source, Spot, mark_for, row_first, weigh};

// What row i adds to a list, one stored pair after the other: where the body goes on, or nothing where it has other numbers.
fn same_row(
    source: &Source<'_>,
    which: Which,
    mark: &[u32],
    i: usize,
    mut spot: Spot,
    made: &mut [u32],
    body: &[u8],
) -> Option<Spot>
    requires { RowListing which source.now.rows.offsets.now source.now.rows.columns.now source.now.factor.p.now source.now.factor.lindptr.now source.now.factor.lindices.now mark.now i × Counting which source.now.rows.offsets.now source.now.rows.columns.now i spot.n × (spot.at + length (cat (i + 1) (piece (shape source.now.rows.offsets.now source.now.rows.columns.now) which i)) ≤ length (numbers_of body.now)) × PieceRoom source.now.rows.offsets.now source.now.rows.columns.now i made.old }
    ensures { MatchOption result (agree (numbers_of body.now) spot.at (cat (i + 1) (piece (shape source.now.rows.offsets.now source.now.rows.columns.now) which i)) ≡ false) (λ s. (agree (numbers_of body.now) spot.at (cat (i + 1) (piece (shape source.now.rows.offsets.now source.now.rows.columns.now) which i)) ≡ true) × (s.at ≡ spot.at + length (cat (i + 1) (piece (shape source.now.rows.offsets.now source.now.rows.columns.now) which i))) × Counting which source.now.rows.offsets.now source.now.rows.columns.now (i + 1) s.n) }
{
    let factor = &source.factor;
    let end = factor.lindptr[i + 1] as usize;
    for t in row_first(which, factor.lindptr, i)..end {
        let j = factor.lindices[t] as usize;
        spot.n += weigh(which, &source.rows, factor.p, mark, i, j);
        let words = source.put_piece(which, mark, Pair { i, j, t }, spot.n, made, 0);
        if !is_same(body, spot.at, made, words) {
            return None;
        }
        spot.at += words;
    }
    Some(spot)
}

// One of the ten lists.
pub fn same_list(
    source: &Source<'_>,
    which: Which,
    mark: &mut [u32],
    made: &mut [u32],
    body: &[u8],
) -> bool
    requires { Unmarked source.now.rows.offsets.now source.now.rows.columns.now source.now.m source.now.factor.p.now source.now.factor.lindptr.now source.now.factor.lindices.now mark.old × (length (list_of (shape source.now.rows.offsets.now source.now.rows.columns.now) which source.now.m) ≤ length (numbers_of body.now)) × (0 < length made.old) × ((i : ℕ) → i < source.now.m → PieceRoom source.now.rows.offsets.now source.now.rows.columns.now i made.old) }
    ensures { result ≡ agree (numbers_of body.now) 0 (list_of (shape source.now.rows.offsets.now source.now.rows.columns.now) which source.now.m) }
{
    let at = base::keep(made, 0, lists::has_head(which).then_some(0));
    if !is_same(body, 0, made, at) {
        return false;
    }
    let mut spot = Spot { at, n: 0 };
    for i in 0..source.m {
        mark_for(which, &source.rows, i, mark);
        match same_row(source, which, mark, i, spot, made, body) {
            Some(next) => spot = next,
            None => return false,
        }
    }
    true
}
