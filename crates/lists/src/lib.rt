// The words of the plan's lists, and their order.
#![tactic(auto)]

ghost use Rattle.std.specs.Prelude.{◌≡◌};
ghost use Rattle.lists.specs.Lists.{begins, field};

// The ten lists that are written pair by pair, by the names of the Rust's fields. An entry is a stored pair (i, j) of the factor.
#[derive(Clone, Copy)]
pub enum Which {
    // anorm_indptr: the shared columns of entry e stand from number e of this list to number e + 1.
    AnormIndptr,
    // anorm_indptr_i: of each column that rows i and j share, where row i's value stands.
    AnormIndptrI,
    // anorm_indptr_j: of each, where row j's value stands.
    AnormIndptrJ,
    // anorm_indices: of each, which column it is.
    AnormIndices,
    // ldecomp_indptr: the products of entry e stand from number e of this list to number e + 1.
    LdecompIndptr,
    // ldecomp_indptr_i: of each product, the place of its first entry, (i, k).
    LdecompIndptrI,
    // ldecomp_indptr_j: of each product, the place of its second entry, (j, k).
    LdecompIndptrJ,
    // lindptr: row i of the factor stands from number i of this list to number i + 1.
    Lindptr,
    // ldiag_indptr: the place of each row's diagonal entry.
    LdiagIndptr,
    // lindices: each entry's column.
    Lindices,
}

// What a walk through two rows writes of a column that they share.
#[derive(Clone, Copy)]
pub enum Take {
    Left,
    Right,
    Column,
}

// Has a list a 0 in front?
pub fn has_head(which: Which) -> bool
    ensures { result ≡ begins which }
{
    matches!(
        which,
        Which::AnormIndptr | Which::LdecompIndptr | Which::Lindptr
    )
}

// The factor's columns (ltindptr, ltindices, ltmap), or the matrix's (atindptr, atindices, atmap).
#[derive(Clone, Copy)]
pub enum Side {
    Factor,
    Matrix,
}

// An entry of a column by its row (ltindices, atindices), or by its place (ltmap, atmap).
#[derive(Clone, Copy)]
pub enum What {
    Numbers,
    Places,
}

// The lists of pairs in their order.
const IN_ORDER: [Which; 10] = [
    Which::AnormIndptr,
    Which::AnormIndptrI,
    Which::AnormIndptrJ,
    Which::AnormIndices,
    Which::LdecompIndptr,
    Which::LdecompIndptrI,
    Which::LdecompIndptrJ,
    Which::Lindptr,
    Which::LdiagIndptr,
    Which::Lindices,
];

// The list of pairs at a place in their order.
pub fn which_field(k: usize) -> Which
    ensures { result ≡ field k }
{
    *IN_ORDER.get(k).unwrap_or(&Which::Lindices)
}
