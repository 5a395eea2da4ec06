// The plan of a solve by value, and the layout of its two memories: where each region of the working memory and each list of the index memory begins.
#![tactic(auto)]

ghost use Rattle.std.specs.Prelude.{◌≡◌, ◌≤◌};
ghost use Rattle.base.proofs.Facts.{facts};
ghost use Rattle.layout.specs.Layout.{plan_of, l_in, top_in, numbers_of, regions_of, top_word};
ghost use Rattle.layout.specs.Lists.{starts_of, sizes_of, words_at, Indexed, Listed};

// The lanes of a call.
pub const LANES: usize = 4;

// The sizes of a problem and of its plan: m rows, n columns, s slack rows, t entries of the matrix; E stored pairs, S shared columns, D products.
#[derive(Clone, Copy)]
pub struct Plan {
    pub m: usize,
    pub n: usize,
    pub s: usize,
    pub t: usize,
    pub stored: usize,
    pub shared: usize,
    pub products: usize,
}

// A block of lanes that is run by itself: those from lane `first` on, of the `total` lanes of a call. How many they are, at most four, is a number of its own, `width`: a number that is the same at every call is known to the compiler, a field is not.
#[derive(Clone, Copy)]
pub struct Block {
    pub total: usize,
    pub first: usize,
}

// The sizes, and where the regions of a block's working memory begin, counted in entries.
#[derive(Clone, Copy)]
pub struct Regions {
    pub m: usize,
    pub n: usize,
    pub s: usize,
    pub x: usize,
    pub z: usize,
    pub dx: usize,
    pub dz: usize,
    pub tmp: usize,
    pub y: usize,
    pub dy: usize,
    pub rhs: usize,
    pub w: usize,
    pub dw: usize,
    pub l: usize,
}

// Where each list of the index memory begins, by the Rust's names, and where the last ends. The last three lists are the matrix's columns.
#[derive(Clone, Copy)]
struct Starts {
    anorm_indptr: usize,
    anorm_indptr_i: usize,
    anorm_indptr_j: usize,
    anorm_indices: usize,
    ldecomp_indptr: usize,
    ldecomp_indptr_i: usize,
    ldecomp_indptr_j: usize,
    lindptr: usize,
    ldiag_indptr: usize,
    lindices: usize,
    ltindptr: usize,
    ltindices: usize,
    ltmap: usize,
    atindptr: usize,
    atindices: usize,
    atmap: usize,
    words: usize,
}

// The lists of the index memory, by the Rust's names, with the plan whose lists they are and the memory that they stand in.
#[derive(Clone, Copy)]
pub struct Lists<'a> {
    pub plan: Plan,
    pub index: &'a [u32],
    // The shared columns of entry e stand from number e of this list to number e + 1.
    pub anorm_indptr: &'a [u32],
    // Of each shared column, where the row's value stands.
    pub anorm_indptr_i: &'a [u32],
    // Of each shared column, where the column's row has its value.
    pub anorm_indptr_j: &'a [u32],
    // Of each shared column, which it is.
    pub anorm_indices: &'a [u32],
    // The products of entry e stand from number e of this list to number e + 1.
    pub ldecomp_indptr: &'a [u32],
    // Of each product, its first entry.
    pub ldecomp_indptr_i: &'a [u32],
    // Of each product, its second entry.
    pub ldecomp_indptr_j: &'a [u32],
    // Row i of the factor stands from number i of this list to number i + 1.
    pub lindptr: &'a [u32],
    // Where each row's diagonal entry stands.
    pub ldiag_indptr: &'a [u32],
    // Each entry's column.
    pub lindices: &'a [u32],
    // Column j of the factor stands from number j of this list to number j + 1.
    pub ltindptr: &'a [u32],
    // The rows of each column.
    pub ltindices: &'a [u32],
    // Where those entries stand in the factor.
    pub ltmap: &'a [u32],
    // Column e of the matrix stands from number e of this list to number e + 1.
    pub atindptr: &'a [u32],
    // The rows of each column.
    pub atindices: &'a [u32],
    // Where those entries stand in the matrix's values.
    pub atmap: &'a [u32],
    ghost listed: { Listed plan index.now anorm_indptr.now anorm_indptr_i.now anorm_indptr_j.now anorm_indices.now ldecomp_indptr.now ldecomp_indptr_i.now ldecomp_indptr_j.now lindptr.now ldiag_indptr.now lindices.now ltindptr.now ltindices.now ltmap.now atindptr.now atindices.now atmap.now } by { Prim.hlevel facts },
}

impl Plan {
    pub const MAX_ROWS: usize = 256;

    pub const MAX_COLUMNS: usize = 1024;

    pub const MAX_ENTRIES: usize = 16384;

    pub const LISTS: usize = 16;

    // Up to these sizes a call has small memories of its own: there is less to clear.
    pub const FEW_ROWS: usize = 16;

    pub const FEW_COLUMNS: usize = 32;

    pub fn new(
        m: usize,
        n: usize,
        s: usize,
        t: usize,
        stored: usize,
        shared: usize,
        products: usize,
    ) -> Self
        ensures { result ≡ plan_of m n s t stored shared products }
    {
        Self {
            m,
            n,
            s,
            t,
            stored,
            shared,
            products,
        }
    }

    // F: how many numbers the working memory of so many lanes has.
    pub fn numbers(self, lanes: usize) -> usize
        requires { (top_in self ≤ top_word) × (numbers_of self lanes ≤ top_word) }
        ensures { result ≡ numbers_of self lanes }
    {
        lanes * (5 * self.n + 3 * self.m + 2 * self.s + self.stored)
    }

    // Where each region of the working memory begins.
    pub fn regions(self) -> Regions
        requires { l_in self ≤ top_word }
        ensures { result ≡ regions_of self.m self.n self.s }
    {
        let m = self.m;
        let n = self.n;
        let s = self.s;
        let y = 5 * n;
        let dy = y + m;
        let rhs = dy + m;
        let w = rhs + m;
        let dw = w + s;
        Regions {
            m,
            n,
            s,
            x: 0,
            z: n,
            dx: 2 * n,
            dz: 3 * n,
            tmp: 4 * n,
            y,
            dy,
            rhs,
            w,
            dw,
            l: dw + s,
        }
    }

    // Where each list of the index memory begins.
    fn starts(self) -> Starts
        requires { words_at self ≤ top_word }
        ensures { result ≡ starts_of self }
    {
        let m = self.m;
        let n = self.n;
        let t = self.t;
        let stored = self.stored;
        let shared = self.shared;
        let products = self.products;
        let anorm_indptr_i = stored + 1;
        let anorm_indptr_j = anorm_indptr_i + shared;
        let anorm_indices = anorm_indptr_j + shared;
        let ldecomp_indptr = anorm_indices + shared;
        let ldecomp_indptr_i = ldecomp_indptr + (stored + 1);
        let ldecomp_indptr_j = ldecomp_indptr_i + products;
        let lindptr = ldecomp_indptr_j + products;
        let ldiag_indptr = lindptr + (m + 1);
        let lindices = ldiag_indptr + m;
        let ltindptr = lindices + stored;
        let ltindices = ltindptr + (m + 1);
        let ltmap = ltindices + stored;
        let atindptr = ltmap + stored;
        let atindices = atindptr + (n + 1);
        let atmap = atindices + t;
        let words = atmap + t;
        Starts {
            anorm_indptr: 0,
            anorm_indptr_i,
            anorm_indptr_j,
            anorm_indices,
            ldecomp_indptr,
            ldecomp_indptr_i,
            ldecomp_indptr_j,
            lindptr,
            ldiag_indptr,
            lindices,
            ltindptr,
            ltindices,
            ltmap,
            atindptr,
            atindices,
            atmap,
            words,
        }
    }

    // How many words each list has.
    pub fn sizes(self) -> [usize; Plan::LISTS]
        requires { words_at self ≤ top_word }
        ensures { result ≡ sizes_of self }
    {
        let m = self.m;
        let t = self.t;
        let stored = self.stored;
        let shared = self.shared;
        let products = self.products;
        [
            stored + 1,
            shared,
            shared,
            shared,
            stored + 1,
            products,
            products,
            m + 1,
            m,
            stored,
            m + 1,
            stored,
            stored,
            self.n + 1,
            t,
            t,
        ]
    }

    // W: how many words the plan has.
    pub fn words(self) -> usize
        requires { words_at self ≤ top_word }
        ensures { result ≡ words_at self }
    {
        self.starts().words
    }

    // The lists of a plan in the index memory.
    pub fn lists(self, index: &[u32]) -> Lists<'_>
        requires { Indexed self index.now }
        ensures { (result.plan ≡ self) × (result.index.now ≡ index.now) }
    {
        let at = self.starts();
        Lists {
            plan: self,
            index,
            anorm_indptr: &index[at.anorm_indptr..at.anorm_indptr_i],
            anorm_indptr_i: &index[at.anorm_indptr_i..at.anorm_indptr_j],
            anorm_indptr_j: &index[at.anorm_indptr_j..at.anorm_indices],
            anorm_indices: &index[at.anorm_indices..at.ldecomp_indptr],
            ldecomp_indptr: &index[at.ldecomp_indptr..at.ldecomp_indptr_i],
            ldecomp_indptr_i: &index[at.ldecomp_indptr_i..at.ldecomp_indptr_j],
            ldecomp_indptr_j: &index[at.ldecomp_indptr_j..at.lindptr],
            lindptr: &index[at.lindptr..at.ldiag_indptr],
            ldiag_indptr: &index[at.ldiag_indptr..at.lindices],
            lindices: &index[at.lindices..at.ltindptr],
            ltindptr: &index[at.ltindptr..at.ltindices],
            ltindices: &index[at.ltindices..at.ltmap],
            ltmap: &index[at.ltmap..at.atindptr],
            atindptr: &index[at.atindptr..at.atindices],
            atindices: &index[at.atindices..at.atmap],
            atmap: &index[at.atmap..at.words],
        }
    }
}
